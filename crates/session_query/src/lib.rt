// What a session reads after its length is known: where the table's text ends, and the query in the line after it.
#![tactic(auto)]

pub mod asker;
pub mod splitter;
pub mod words;

use refusal::InputCause;

// The most bytes of a query: 3 + 255 + 1 + 255.
pub const QUERY_BYTES: usize = 514;

// A query's bytes, from the front of an array that holds every query; the others are 0.
#[derive(Clone, Copy)]
pub struct Query {
    pub bytes: [u8; QUERY_BYTES],
}

// What a text asks: nothing, for a cause, or a query. Where it asks nothing, the query's bytes are all 0.
#[derive(Clone, Copy)]
pub struct Question {
    pub asking: Result<(), InputCause>,
    pub query: Query,
}
