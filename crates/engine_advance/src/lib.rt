// The core of a call for a reading: the run goes in by value, and comes back by value.
#![tactic(auto)]

ghost use Rattle.std.specs.Prelude.{◌≡◌};
ghost use Rattle.table_format.specs.Loaded.{counts_in, table_in};
ghost use Rattle.table_check.specs.Check.{layout_of};
ghost use Rattle.machine.specs.Answer.{told};
ghost use Rattle.machine.specs.Reading.{outcome, OutcomeIs};
ghost use Rattle.engine_advance.specs.Admitted.{Admitted};

use engine_admission::Side;
use engine_frames::{Setting, Setup};
use machine::{Called, Run};
use refusal::StateCause;
use table_check::Checked;

// 21, then the steps, where 20, 11, 10 and 39 are not given. The rows of the classes come by value beside what the check tells, and are lent on.
fn resume(
    table: &[u16],
    checked: &Checked,
    classes: [[u8; 16]; 8],
    upper: &[u8],
    lower: &[u8],
    run: Run,
    stack: &mut [u32],
    allowance: u32,
    output: &mut [u8],
) -> Called
    requires admitted { Admitted table.now run.task upper.now lower.now run.ceiling checked.now.first }
    requires layout { checked.now.layout ≡ layout_of (counts_in table.now) }
    requires rows { classes ≡ (table_in table.now).classes }
    ensures { OutcomeIs (outcome table.now upper.now lower.now run stack.old allowance output.old)
        (told result.answer) result.run stack.new output.new }
{
    let at = checked.layout;
    let setting = Setting {
        setup: Setup {
            states: at.states,
            up: engine_admission::reads(run.task, Side::Upper),
            low: engine_admission::reads(run.task, Side::Lower),
            ceiling: run.ceiling,
        },
        classes: &classes,
        first: &checked.first,
        initials: at.initials(table),
        terminals: at.terminals(table),
        arcs: at.arcs(table),
        upper,
        lower,
    };
    if !engine_place::place_holds(setting, run, stack) {
        return engine_search::refused(0, StateCause::Place.into(), run);
    }
    engine_search::take_steps(setting, allowance, run, stack, output)
}

// The call for a reading: 20, 11, 10, 39, 21, then steps until the end, a reading, the allowance or a refusal.
pub fn advance(
    table: &[u16],
    upper: &[u8],
    lower: &[u8],
    run: Run,
    stack: &mut [u32],
    allowance: u32,
    output: &mut [u8],
) -> Called
    ensures { OutcomeIs (outcome table.now upper.now lower.now run stack.old allowance output.old)
        (told result.answer) result.run stack.new output.new }
{
    let Ok(checked) = table_check::check(table) else {
        return engine_search::refused(0, StateCause::LoadedTable.into(), run);
    };
    if let Err(cause) = engine_admission::admitted(run.task, upper, lower, run.ceiling) {
        return engine_search::refused(0, cause.into(), run);
    }
    let classes = table_classes::rows(table);
    resume(
        table, &checked, classes, upper, lower, run, stack, allowance, output,
    )
}
