// The states of a letter tree in a row, word by word (`tree`), and the children of each state (`children`).
#![tactic(auto)]

pub mod children;
pub mod tree;
