// The call for a reading.
ghost use Rattle.machine.specs.Reading.{outcome, OutcomeIs};
ghost use Rattle.capi_numbers.specs.Numbers.{reply_told};

use capi_numbers::{Reply, answer_numbers};
use engine::next_reading;

// Goes on with a search, for at most `allowance` steps, to the next reading: run and stack are moved on, and a reading is written from the
// front of the output.
#[unsafe(no_mangle)]
pub extern "C" fn rd_next(
    table: &[u16],
    upper: &[u8],
    lower: &[u8],
    run: &mut machine::Run,
    stack: &mut [u32],
    allowance: u32,
    output: &mut [u8],
) -> Reply
    ensures { OutcomeIs (outcome table.now upper.now lower.now run.old stack.old allowance output.old)
        (reply_told result) run.new stack.new output.new }
{
    let answer = next_reading(table, upper, lower, run, stack, allowance, output);
    answer_numbers(answer)
}
