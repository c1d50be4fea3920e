// Calls for a reading, one after the other.
#![tactic(auto)]

ghost use Rattle.session_calls.specs.Calls.{calls_outcome, CallsOutcomeIs};

use machine::{Answer, Run};
use refusal::Refusal;

// The allowance of a call.
pub const CALL_STEPS: u32 = 1000;

// The calls of a session.
pub const MOST_CALLS: u32 = 65536;

// What calls for a reading come to, where none is refused: a reading of so many letters with the calls left, the end, or no call left.
#[derive(Clone, Copy)]
pub enum CallResult {
    Reading { length: u32, run: Run, calls: u32 },
    Ended,
    Spent,
}

// Calls until one is not Paused or none is left.
pub fn make_calls(
    table: &[u16],
    upper: &[u8],
    lower: &[u8],
    mut run: Run,
    calls: u32,
    stack: &mut [u32],
    output: &mut [u8],
) -> Result<CallResult, Refusal>
    ensures { CallsOutcomeIs (calls_outcome table.now upper.now lower.now calls run stack.old output.old) result stack.new output.new }
{
    for left in (0..calls).rev() {
        let called = engine_advance::advance(table, upper, lower, run, stack, CALL_STEPS, output);
        run = called.run;
        match called.answer {
            Answer::Found { length, .. } => {
                return Ok(CallResult::Reading {
                    length,
                    run,
                    calls: left,
                });
            }
            Answer::Paused { .. } => {}
            Answer::Ended { .. } => return Ok(CallResult::Ended),
            Answer::Refused { refusal, .. } => return Err(refusal),
        }
    }
    Ok(CallResult::Spent)
}
