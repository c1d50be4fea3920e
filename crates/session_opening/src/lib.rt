// The opening of a session: the input's length, the table, the query, the start.
#![tactic(auto)]

ghost use Rattle.std.specs.Prelude.{◌≡◌, ◌≤◌, length};
ghost use Rattle.table_format.specs.Line.{lines_of};
ghost use Rattle.table_format.specs.Loaded.{most_cells};
ghost use Rattle.session_query.specs.Query.{query_of};
ghost use Rattle.session_opening.specs.Opened.{opened_query, opened};
ghost use Rattle.session_opening.specs.Outcome.{opening_told, first_state, opening_outcome, OpeningOutcomeIs};

use machine::{Run, StartAnswer};
use refusal::{InputCause, Refusal};
use session_query::{Query, asker, splitter};
use table::reader;
use table_format::MOST_CELLS;

// The bytes of an input.
pub const MOST_INPUT: usize = 65536;

// The ceiling of a session's run.
const CEILING: u32 = machine::MOST_CEILING;

// Where a session stands between two lines: its run, the readings told and the calls left.
#[derive(Clone, Copy)]
pub struct SessionState {
    pub run: Run,
    pub count: u16,
    pub calls: u32,
}

impl SessionState {
    // No reading told yet, and every call left.
    fn first(run: Run) -> SessionState
        ensures { result ≡ first_state run }
    {
        SessionState {
            run,
            count: 0,
            calls: session_calls::MOST_CALLS,
        }
    }
}

// The query, then the start. Only where both pass are the lent arrays written.
fn begin_query(
    text: &[u8],
    cells: &[u16],
    table: &mut [u16; MOST_CELLS],
    query: &mut Query,
) -> Result<SessionState, Refusal>
    requires { length cells.now ≤ most_cells }
    ensures { OpeningOutcomeIs (opening_outcome (opened_query cells.now (query_of (lines_of text.now))) table.old query.old.bytes) (opening_told result) table.new query.new.bytes }
{
    let question = asker::query(text);
    question.asking?;
    let asked = question.query;
    let started = engine_start::start(cells, asked.task(), asked.upper(), asked.lower(), CEILING);
    if let StartAnswer::Refused(refusal) = started.answer {
        return Err(refusal);
    }
    table[..cells.len()].copy_from_slice(cells);
    *query = asked;
    Ok(SessionState::first(started.run))
}

// The opening of a session on an input: the state to begin with. The lent arrays hold every table and every query.
pub fn begin(
    input: &[u8],
    table: &mut [u16; MOST_CELLS],
    query: &mut Query,
) -> Result<SessionState, Refusal>
    ensures { OpeningOutcomeIs (opening_outcome (opened input.now) table.old query.old.bytes) (opening_told result) table.new query.new.bytes }
{
    if MOST_INPUT < input.len() {
        return Err(Refusal::Input(InputCause::CountLimit));
    }
    let end = splitter::table_end(input);
    let mut cells = [0; MOST_CELLS];
    let count = reader::read(&input[..end], &mut cells)?;
    begin_query(&input[end..], &cells[..count], table, query)
}
