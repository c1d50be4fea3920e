// Lists of a table that stand in order: one look at each item shows that they keep the rules.
#![tactic(auto)]

ghost use Rattle.std.specs.Prelude.{◌≡◌, length};
ghost use Rattle.table_format.specs.Classes.{class_count};
ghost use Rattle.table_format.specs.Loaded.{class_cells, rows_in};
ghost use Rattle.table_format.specs.Rules.{terminals_keep, penalties_keep};
ghost use Rattle.table_format.specs.Cells.{arc_said, arcs_as};
ghost use Rattle.table_order.specs.Order.{joined_letters, joined_plain, key_by, is_below, arc_classes_hold, arcs_rise};

use table_format::{ARC_WIDTH, Arc, MOST_PENALTY, arc_at};

// Terminal states that rise are states where the last one is. The loop goes through the whole list, so that several are compared at once.
pub fn terminals_hold(list: &[u16], states: u16) -> bool
    ensures { result ≡ terminals_keep states list.now }
{
    let Some(last) = list.last() else {
        return true;
    };
    let mut rise = true;
    for k in 1..list.len() {
        if list[k] <= list[k - 1] {
            rise = false;
        }
    }
    rise && *last < states
}

// The letters of an arc as one number.
fn letters(arc: Arc) -> u32
    ensures { result ≡ joined_letters (arc_said arc) }
{
    u32::from(arc.lower) * 65536 + u32::from(arc.upper)
}

// Whether letters joined by `|` mean no class.
#[tactic(auto, unfolding(crate::specs::Order::joined_plain))]
fn joined_plain(joined: u32) -> bool
    ensures { result ≡ joined_plain joined }
{
    joined % 65536 <= 63 && joined / 65536 <= 63
}

// A number for an arc by its source and letters, which rises where arcs stand in order.
fn order_key(source: u16, letters: u32) -> u64
    ensures { result ≡ key_by source letters }
{
    u64::from(source) * 4294967296 + u64::from(letters)
}

// Whether an arc has a target that is a state and a key below `bound`.
fn is_below(states: u16, target: u16, key: u64, bound: u64) -> bool
    ensures { result ≡ is_below states bound target key }
{
    target < states && key < bound
}

// Whether each arc has no class, or a defined one on both sides.
fn arc_classes_hold(rows: &[u16], cells: &[u16]) -> bool
    requires { length rows.now ≡ class_cells }
    ensures { result ≡ arc_classes_hold (rows_in class_count rows.now) (arcs_as cells.now) }
{
    // A loop from the last arc back: `all` over the range takes an instruction more for each arc.
    for n in (0..cells.len() / ARC_WIDTH).rev() {
        if !table_classes::arc_class_holds(rows, arc_at(cells, n)) {
            return false;
        }
    }
    true
}

// Whether each arc's penalty is within its limit.
pub fn penalties_hold(cells: &[u16]) -> bool
    ensures { result ≡ penalties_keep (arcs_as cells.now) }
{
    (0..cells.len() / ARC_WIDTH).all(|n| arc_at(cells, n).penalty <= MOST_PENALTY)
}

// Whether the arcs stand in order: then they keep the rules, and none has to be looked for among those before it. The keys fall from the last
// arc back, and the first bound is above the key of each arc from a state; letters and penalties are joined, and the arcs looked at once more
// only where some letter means a class.
pub fn arcs_rise(rows: &[u16], cells: &[u16], states: u16) -> bool
    requires { length rows.now ≡ class_cells }
    ensures { result ≡ arcs_rise states (rows_in class_count rows.now) (arcs_as cells.now) }
{
    let mut bound = u64::from(states) * 4294967296;
    let mut joined: u32 = 0;
    let mut penalties: u16 = 0;
    for n in (0..cells.len() / ARC_WIDTH).rev() {
        let arc = arc_at(cells, n);
        let both = letters(arc);
        let key = order_key(arc.source, both);
        if !is_below(states, arc.target, key, bound) {
            return false;
        }
        bound = key;
        joined |= both;
        penalties |= arc.penalty;
    }
    if MOST_PENALTY < penalties {
        return false;
    }
    joined_plain(joined) || arc_classes_hold(rows, cells)
}
