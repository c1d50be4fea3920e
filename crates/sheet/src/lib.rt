// The answer sheet: readings laid out on lines of 72 characters, and a sheet's opening and last line read back.
#![tactic(auto)]

pub mod ends;
pub mod reader;
pub mod writer;

// What the last line of a sheet says: whether the run ended.
#[derive(Clone, Copy, Debug, PartialEq, Eq)]
pub enum LastWord {
    End,
    More,
}
