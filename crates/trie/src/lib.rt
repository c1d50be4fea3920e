// The letter tree's table of a list of words: its cells (`cells`), and the call that builds it (`builder`).
#![tactic(auto)]

pub mod builder;
pub mod cells;
