// The parts of a query, cut out of its bytes. Whatever these are, both words are within them: 3 + 255 + 1 + 255 are QUERY_BYTES.
ghost use Rattle.std.specs.Prelude.{◌≡◌, ◌+◌, ◌≤◌, replicate};
ghost use Rattle.session_query.specs.Query.{query_bytes, task_in, word_at, upper_in, lower_in};

use crate::{QUERY_BYTES, Query};

// The word whose length stands at a place.
fn word_at(query: &[u8; QUERY_BYTES], at: usize) -> &[u8]
    requires { at + 256 ≤ query_bytes }
    ensures { result.now ≡ word_at query.now at }
{
    let size = usize::from(query[at]);
    &query[at + 1..at + 1 + size]
}

impl Query {
    // No query's bytes yet: all are 0.
    pub fn empty() -> Query
        ensures { result.bytes ≡ replicate query_bytes 0 }
    {
        Query {
            bytes: [0; QUERY_BYTES],
        }
    }

    pub fn task(&self) -> u32
        ensures { result ≡ task_in self.now.bytes }
    {
        u32::from(self.bytes[1])
    }

    pub fn upper(&self) -> &[u8]
        ensures { result.now ≡ upper_in self.now.bytes }
    {
        word_at(&self.bytes, 2)
    }

    pub fn lower(&self) -> &[u8]
        ensures { result.now ≡ lower_in self.now.bytes }
    {
        word_at(&self.bytes, 3 + usize::from(self.bytes[2]))
    }
}
