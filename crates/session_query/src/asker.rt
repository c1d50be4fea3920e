// The query: exactly one line.
ghost use Rattle.std.specs.Prelude.{◌≡◌};
ghost use Rattle.table_format.specs.Line.{lines_of};
ghost use Rattle.session_query.specs.Query.{is_query, query_of, fault};
ghost use Rattle.session_query.specs.Asking.{question_of};

use crate::{QUERY_BYTES, Query, Question};
use refusal::InputCause;
use table_scanner::Line;

// Whether bytes are a query's: `10`, the task, a length with its letters, a length with its letters, and nothing else.
fn is_query(bytes: &[u8]) -> bool
    ensures { result ≡ is_query bytes.now }
{
    let [kind, _, upper, words @ ..] = bytes else {
        return false;
    };
    let upper = usize::from(*upper);
    *kind == 0x10 && upper < words.len() && words.len() == upper + 1 + usize::from(words[upper])
}

// No query, for a cause.
#[tactic(auto, unfolding(crate::specs::Query::filled))]
fn none(cause: InputCause) -> Question
    ensures { result ≡ question_of (fault cause) }
{
    Question {
        asking: Err(cause),
        query: Query::empty(),
    }
}

// The query of a text.
pub fn query(text: &[u8]) -> Question
    ensures { result ≡ question_of (query_of (lines_of text.now)) }
{
    if text.is_empty() {
        return none(InputCause::Misplaced);
    }
    let mut bytes = [0; QUERY_BYTES];
    let Line { count, next } = match table_scanner::scan(text, 0, &mut bytes) {
        Ok(line) => line,
        Err(cause) => return none(cause),
    };
    if next == text.len() && count <= QUERY_BYTES && is_query(&bytes[..count]) {
        Question {
            asking: Ok(()),
            query: Query { bytes },
        }
    } else {
        none(InputCause::Misplaced)
    }
}
