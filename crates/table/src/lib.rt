// The calls on tables: their text read and written. Nothing here knows of searching.
#![tactic(auto)]

pub mod reader;
pub mod writer;
