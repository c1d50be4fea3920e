// A session over standard input: a table's text and one query in, the readings out, a line each.
//
//     20 ordinal length letters    a reading
//     2F count                     the end
//     2D count                     1,000 readings, or 65,536 calls, and no end
//     2E number                    a refusal
//
// Where standard input cannot be read or standard output not be written, it says so on standard error and stops.
#![tactic(auto)]

use session::STACK_CELLS;
use session_opening::SessionState;
use session_query::Query;
use session_replies::{LINE_CHARACTERS, OUTPUT_LETTERS};
use std::io;
use table_format::MOST_CELLS;

// The lines of a session that is open, to the last.
fn write_lines<R: Print>(
    rt: &R,
    table: &[u16; MOST_CELLS],
    query: &Query,
    first: SessionState,
    stack: &mut [u32; STACK_CELLS],
    output: &mut [u8; OUTPUT_LETTERS],
    line: &mut [u8; LINE_CHARACTERS],
) -> io::Result<()> {
    let mut next = Some(first);
    while let Some(state) = next {
        let told = session::next_line(table, query, state, stack, output, line);
        rt.write_all(&line[..told.length])?;
        next = told.next;
    }
    Ok(())
}

// The lines of a session on an input, or that of its refusal.
fn write_session<R: Print>(rt: &R, input: &[u8]) -> io::Result<()> {
    let mut table = [0; MOST_CELLS];
    let mut query = Query::empty();
    let mut line = [0; LINE_CHARACTERS];
    match session_opening::begin(input, &mut table, &mut query) {
        Ok(state) => {
            let mut stack = session::first_stack();
            let mut output = session::first_output();
            write_lines(
                rt,
                &table,
                &query,
                state,
                &mut stack,
                &mut output,
                &mut line,
            )
        }
        Err(refusal) => {
            let length = session::refused_line(refusal, &mut line);
            rt.write_all(&line[..length])
        }
    }
}

fn main(rt: HostRuntime) {
    let mut text = [0; session_opening::MOST_INPUT + 1];
    let Ok(count) = input::read_all(&mut rt.stdin(), &mut text) else {
        let _ = rt.eprintln("readings: standard input cannot be read");
        return;
    };
    if write_session(&rt, &text[..count]).is_err() {
        let _ = rt.eprintln("readings: standard output cannot be written");
    }
}
