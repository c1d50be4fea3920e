// Answers as structs of numbers, for C.
#![tactic(auto)]

ghost use Rattle.std.specs.Prelude.{◌≡◌, ℕ, ◌<◌, ◌^◌, Ok};
ghost use Rattle.refusal.specs.Told.{refused_told, answered};
ghost use Rattle.machine.specs.Answer.{told, start_told};
ghost use Rattle.destination.specs.Told.{stored_told};
ghost use Rattle.capi_numbers.specs.Numbers.{reply_told};

use machine::{Answer, StartAnswer};
use refusal::Refusal;

// The kinds of answers, as numbers: the C interface has them so.
pub const DONE: u32 = 0;

pub const FOUND: u32 = 1;

pub const PAUSED: u32 = 2;

pub const ENDED: u32 = 3;

pub const REFUSED: u32 = 4;

// An answer in numbers. Kind: 0 done, 1 found, 2 paused, 3 ended, 4 refused. Number: document 01's of the refusal, else 0.
// A field that has no meaning for an answer is 0.
#[repr(C)]
#[derive(Clone, Copy)]
pub struct Reply {
    pub kind: u32,
    pub number: u32,
    pub steps: u32,
    pub length: u32,
}

// A refusal, by its number.
pub fn refused(refusal: Refusal, steps: u32, length: u32) -> Reply
    ensures { reply_told result ≡ refused_told refusal steps length }
{
    Reply {
        kind: REFUSED,
        number: u32::from(refusal.number()),
        steps,
        length,
    }
}

// Any other answer.
pub fn answered(kind: u32, steps: u32, length: u32) -> Reply
    ensures { reply_told result ≡ answered kind steps length }
{
    Reply {
        kind,
        number: 0,
        steps,
        length,
    }
}

// Of the call for a reading.
pub fn answer_numbers(answer: Answer) -> Reply
    ensures { reply_told result ≡ told answer }
{
    match answer {
        Answer::Found { steps, length } => answered(FOUND, steps, length),
        Answer::Paused { steps } => answered(PAUSED, steps, 0),
        Answer::Ended { steps } => answered(ENDED, steps, 0),
        Answer::Refused { steps, refusal } => refused(refusal, steps, 0),
    }
}

// Of the calls with a destination, whose counts fit.
pub fn stored_numbers(answer: Result<usize, Refusal>) -> Reply
    requires { (count : ℕ) → answer ≡ Ok count → count < 2 ^ 32 }
    ensures { reply_told result ≡ stored_told answer }
{
    match answer {
        Ok(count) => answered(DONE, 0, count as u32),
        Err(refusal) => refused(refusal, 0, 0),
    }
}

// Of the start, with the length of the cycle that it tells.
pub fn start_numbers(answer: StartAnswer, length: u32) -> Reply
    ensures { reply_told result ≡ start_told answer length }
{
    match answer {
        StartAnswer::Ready => answered(DONE, 0, 0),
        StartAnswer::Refused(refusal) => refused(refusal, 0, length),
    }
}
