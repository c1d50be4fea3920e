// The call for a reading: the caller's record of the run is moved on in it.
#![tactic(auto)]

ghost use Rattle.machine.specs.Answer.{told};
ghost use Rattle.machine.specs.Reading.{outcome, OutcomeIs};

use engine_advance::advance;
use machine::{Answer, Run};

// `advance`, with the run lent: what it comes back as is put into the caller's record.
pub fn next_reading(
    table: &[u16],
    upper: &[u8],
    lower: &[u8],
    run: &mut Run,
    stack: &mut [u32],
    allowance: u32,
    output: &mut [u8],
) -> Answer
    ensures { OutcomeIs (outcome table.now upper.now lower.now run.old stack.old allowance output.old)
        (told result) run.new stack.new output.new }
{
    let c = advance(table, upper, lower, *run, stack, allowance, output);
    *run = c.run;
    c.answer
}
