// What the cases of a script are made of: its numbers on the way in, and what is told of a call on the way out.
#![tactic(auto)]

pub mod numbers;
pub mod show;

use numbers::Numbers;

// A case: the sign that says what is done, its line from the colon on, and the numbers of it.
#[derive(Clone, Copy)]
pub struct Case<'a> {
    pub sign: u8,
    pub line: &'a [u8],
    pub list: Numbers<'a>,
}
