// A session that is open: its lines, one a call. Nothing here reads or writes but what it is lent. The lent arrays hold every table, every
// query and every line, so nothing is too short.
#![tactic(auto)]

ghost use Rattle.std.specs.Prelude.{◌≡◌, ◌<◌};
ghost use Rattle.session_calls.specs.Calls.{Fits};
ghost use Rattle.session_replies.specs.Lines.{refusal_line, LineStored};
ghost use Rattle.session.specs.Session.{most_readings, first_stack, first_output};
ghost use Rattle.session.specs.Next.{line_told, ResultLineIs, line_outcome, LineOutcomeIs};

use refusal::Refusal;
use session_calls::{CallResult, make_calls};
use session_opening::SessionState;
use session_query::Query;
use session_replies::{LINE_CHARACTERS, OUTPUT_LETTERS};
use table_format::MOST_CELLS;

// The readings of a session.
pub const MOST_READINGS: u16 = 1000;

// The frames of its stack.
pub const STACK_FRAMES: usize = 4096;

// Their cells: five each.
pub const STACK_CELLS: usize = STACK_FRAMES * machine::FRAME_WIDTH;

// A line's length, and the state to go on with where another line follows.
#[derive(Clone, Copy)]
pub struct Line {
    pub length: usize,
    pub next: Option<SessionState>,
}

// The stack that the first call of `next_line` is lent.
pub fn first_stack() -> [u32; STACK_CELLS]
    ensures { result ≡ first_stack }
{
    [0; STACK_CELLS]
}

// The output buffer that it is lent.
pub fn first_output() -> [u8; OUTPUT_LETTERS]
    ensures { result ≡ first_output }
{
    [0; OUTPUT_LETTERS]
}

// The line of what calls come to, from the front of `line`.
fn result_line(
    reached: Result<CallResult, Refusal>,
    count: u16,
    output: &[u8; OUTPUT_LETTERS],
    line: &mut [u8; LINE_CHARACTERS],
) -> Line
    requires { (count < most_readings) × Fits reached output.now }
    ensures { ResultLineIs reached count output.now (line_told result) line.old line.new }
{
    match reached {
        Ok(CallResult::Reading { length, run, calls }) => {
            let ordinal = count + 1;
            let letters = &output[..length as usize];
            Line {
                length: session_replies::reading_line(line, ordinal, letters),
                next: Some(SessionState {
                    run,
                    count: ordinal,
                    calls,
                }),
            }
        }
        Ok(CallResult::Ended) => Line {
            length: session_replies::end_line(line, count),
            next: None,
        },
        Ok(CallResult::Spent) => Line {
            length: session_replies::limit_line(line, count),
            next: None,
        },
        Err(refusal) => Line {
            length: session_replies::refusal_line(line, refusal),
            next: None,
        },
    }
}

// The next line of a session, from the front of `line`.
// Lent one by one: the theorems say of each lent array what it holds before and after a call (LineOutcomeIs).
pub fn next_line(
    table: &[u16; MOST_CELLS],
    query: &Query,
    state: SessionState,
    stack: &mut [u32; STACK_CELLS],
    output: &mut [u8; OUTPUT_LETTERS],
    line: &mut [u8; LINE_CHARACTERS],
) -> Line
    ensures { LineOutcomeIs (line_outcome table.now query.now.bytes state stack.old output.old line.old) (line_told result) stack.new output.new line.new }
{
    let count = state.count;
    if MOST_READINGS <= count {
        return Line {
            length: session_replies::limit_line(line, count),
            next: None,
        };
    }
    let upper = query.upper();
    let lower = query.lower();
    let result = make_calls(table, upper, lower, state.run, state.calls, stack, output);
    result_line(result, count, output, line)
}

// The line of a session that is refused when it is opened, from the front of `line`; how many characters it has.
pub fn refused_line(refusal: Refusal, line: &mut [u8; LINE_CHARACTERS]) -> usize
    ensures { LineStored (refusal_line refusal) result line.old line.new }
{
    session_replies::refusal_line(line, refusal)
}
