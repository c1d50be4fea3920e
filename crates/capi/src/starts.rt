// The start of a search.
ghost use Rattle.std.specs.Prelude.{◌≡◌};
ghost use Rattle.machine.specs.Start.{started, start_told_by};
ghost use Rattle.capi_numbers.specs.Numbers.{reply_told};
ghost use Rattle.capi.specs.Start.{start_run, ReplyIs};

use crate::{Begun, StartReply};
use capi_numbers::start_numbers;
use engine_start::start;
use machine::{Run, StartAnswer, Started};

// The run that a start leaves: its own where it passes, else the one that was there.
fn start_run(answer: StartAnswer, begun: Run, before: Run) -> Run
    ensures { result ≡ start_run answer begun before }
{
    match answer {
        StartAnswer::Ready => begun,
        StartAnswer::Refused(_) => before,
    }
}

// The answer in numbers, with the cycle.
fn start_reply(s: Started) -> StartReply
    ensures { (reply_told result.answer ≡ start_told_by s) × (result.cycle ≡ s.cycle) }
{
    let numbers = start_numbers(s.answer, s.length);
    // Named first: a field that is an array gets no proof where it goes into a literal straight.
    let cycle = s.cycle;
    StartReply {
        answer: numbers,
        cycle,
    }
}

// The start with the run by value.
fn begin(table: &[u16], task: u32, ceiling: u32, upper: &[u8], lower: &[u8], run: Run) -> Begun
    ensures { ReplyIs (started table.now task upper.now lower.now ceiling) run result.reply result.run }
{
    let s = start(table, task, upper, lower, ceiling);
    let left = start_run(s.answer, s.run, run);
    let reply = start_reply(s);
    Begun { reply, run: left }
}

// Begins a search. A start that passes sets the caller's run; one that is refused leaves it.
#[unsafe(no_mangle)]
pub extern "C" fn rd_start(
    table: &[u16],
    task: u32,
    ceiling: u32,
    upper: &[u8],
    lower: &[u8],
    run: &mut Run,
) -> StartReply
    ensures { ReplyIs (started table.now task upper.now lower.now ceiling) run.old result run.new }
{
    let b = begin(table, task, ceiling, upper, lower, *run);
    *run = b.run;
    b.reply
}
