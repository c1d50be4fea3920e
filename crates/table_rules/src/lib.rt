// The rules of a table, 3 to 8 and 34, on a header and on one item, with the items of its kind before it.
#![tactic(auto)]

ghost use Rattle.std.specs.Prelude.{◌≡◌, ◌≤◌, true, length};
ghost use Rattle.table_format.specs.Classes.{class_count};
ghost use Rattle.table_format.specs.Loaded.{class_cells, rows_in};
ghost use Rattle.table_format.specs.Rules.{counts_hold, initial_faults, terminal_faults, arc_faults, arcs_keep, source_holds};
ghost use Rattle.table_rules.specs.Judge.{judged, largest, state_key, arc_key, SourcesRise, repeated};
ghost use Rattle.table_format.specs.Cells.{counts_as, arc_said, arcs_as};

use refusal::InputCause;
use table_classes::arc_class_holds;
use table_format::{ARC_WIDTH, Arc, arc_at};

// Rule 3: each count is within its limit.
#[tactic(auto, unfolding(table_format::specs::Rules::counts_hold))]
pub fn counts_hold(states: u16, initials: u16, terminals: u16, arcs: u16) -> bool
    ensures { result ≡ counts_hold (counts_as states initials terminals arcs) }
{
    1 <= states
        && states <= 256
        && 1 <= initials
        && initials <= states
        && terminals <= states
        && arcs <= 1024
}

// A number for a state, so that most are seen to be new by one comparison.
pub fn state_key(state: u16) -> u64
    ensures { result ≡ state_key state }
{
    u64::from(state) + 1
}

// An initial state. A state whose key is above `top`, which no key before it is, is new.
pub fn initial_fault(before: &[u16], states: u16, state: u16, top: u64) -> Result<(), InputCause>
    requires { largest state_key before.now ≤ top }
    ensures { result ≡ judged (initial_faults states before.now state) }
{
    if states <= state {
        return Err(InputCause::StateNumber);
    }
    if state_key(state) <= top && before.contains(&state) {
        return Err(InputCause::StateOrder);
    }
    Ok(())
}

// A terminal state.
pub fn terminal_fault(before: &[u16], states: u16, state: u16) -> Result<(), InputCause>
    ensures { result ≡ judged (terminal_faults states before.now state) }
{
    if states <= state {
        return Err(InputCause::StateNumber);
    }
    match before.last() {
        Some(last) if state <= *last => Err(InputCause::StateOrder),
        _ => Ok(()),
    }
}

// A number for an arc, to the same end.
pub fn arc_key(arc: Arc) -> u64
    ensures { result ≡ arc_key (arc_said arc) }
{
    u64::from(arc.source) * 4294967296
        + u64::from(arc.lower) * 16777216
        + u64::from(arc.upper) * 65536
        + u64::from(arc.target)
        + 1
}

// Rule 7: the source of an arc is not below that of the last of some arcs, if there is one.
fn source_holds(before: &[u16], arc: Arc) -> bool
    ensures { result ≡ source_holds (arcs_as before.now) (arc_said arc) }
{
    let count = before.len() / ARC_WIDTH;
    count == 0 || arc_at(before, count - 1).source <= arc.source
}

// Whether an arc is in a list of arcs whose sources rise to at most its own: it is looked for among the last ones, of its source.
fn is_repeated(before: &[u16], arc: Arc) -> bool
    requires { SourcesRise before.now arc.source }
    ensures { result ≡ repeated (arcs_as before.now) (arc_said arc) }
{
    for n in (0..before.len() / ARC_WIDTH).rev() {
        let other = arc_at(before, n);
        if other.source != arc.source {
            return false;
        }
        if other.upper == arc.upper && other.lower == arc.lower && other.target == arc.target {
            return true;
        }
    }
    false
}

// An arc, after arcs that keep the rules. One whose key is above `top`, which no key before it is, is new.
#[tactic(auto, using(crate::proofs::Faults::arc_lower_out))]
pub fn arc_fault(
    rows: &[u16],
    before: &[u16],
    states: u16,
    arc: Arc,
    top: u64,
) -> Result<(), InputCause>
    requires rows_len { length rows.now ≡ class_cells }
    requires before_value { arcs_keep states (rows_in class_count rows.now) (arcs_as before.now) ≡ true }
    requires before_bound { largest arc_key (arcs_as before.now) ≤ top }
    ensures { result ≡ judged (arc_faults states (rows_in class_count rows.now) (arcs_as before.now) (arc_said arc)) }
{
    if states <= arc.source || states <= arc.target {
        return Err(InputCause::StateNumber);
    }
    if 71 < arc.upper || 71 < arc.lower {
        return Err(InputCause::LetterLimit);
    }
    if !arc_class_holds(rows, arc) {
        return Err(InputCause::ClassFault);
    }
    if !source_holds(before, arc) {
        return Err(InputCause::SourceOrder);
    }
    if arc_key(arc) <= top && is_repeated(before, arc) {
        return Err(InputCause::ArcRepeated);
    }
    Ok(())
}
