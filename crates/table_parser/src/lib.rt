// The lines of a text to the cells of a table: each line is scanned, judged and appended.
#![tactic(auto)]

ghost use Rattle.std.specs.Prelude.{◌≡◌, true, ◌≤◌, length, drop};
ghost use Rattle.table_format.specs.Rules.{counts_hold};
ghost use Rattle.table_format.specs.Loaded.{count_cells, counts_in};
ghost use Rattle.table_format.specs.Parse.{counts_from, turned_down, parsed};
ghost use Rattle.table_scanner.specs.Scan.{first_line};
ghost use Rattle.table_items.specs.Draft.{filled_up};
ghost use Rattle.table_parser.specs.Gathered.{gathered, ReadInto, items_parsed, after_end};

use refusal::InputCause;
use table_format::{HEADER_BYTES, HEADER_KIND, INITIALS_AT, LINE_BYTES, MOST_CELLS};
use table_items::{Draft, ItemLine, LineKind};
use table_scanner::{Line, number_at, scan};

// What a text gives: how many cells its table has, or the first bad line's refusal; and the cells, filled up with 0, all 0 where the text is refused.
#[derive(Clone, Copy)]
pub struct Gathered {
    pub read: Result<usize, InputCause>,
    pub cells: [u16; MOST_CELLS],
}

fn refused(cause: InputCause) -> Gathered
    ensures { result ≡ gathered (turned_down cause) }
{
    let cells = [0u16; MOST_CELLS];
    Gathered {
        read: Err(cause),
        cells,
    }
}

// What a line after the end line earns.
fn after_end(text: &[u8], at: usize) -> InputCause
    ensures { result ≡ after_end (first_line (drop at text.now)) }
{
    let mut bytes = [0u8; LINE_BYTES];
    match scan(text, at, &mut bytes) {
        Ok(_) => InputCause::Misplaced,
        Err(cause) => cause,
    }
}

// The lines after the header's, from `start` on, put in the cells, which hold the header's counts already: how many cells there are then.
fn read_items(text: &[u8], start: usize, cells: &mut [u16; MOST_CELLS]) -> Result<usize, InputCause>
    requires { (start ≤ length text.now) × (counts_hold (counts_in cells.old) ≡ true) × (cells.old ≡ filled_up (count_cells (counts_in cells.old))) }
    ensures { ReadInto (items_parsed (counts_in cells.old) (drop start text.now)) result cells.new }
{
    let mut draft = Draft {
        lines: 1,
        filled: INITIALS_AT,
        top: 0,
    };
    // Each line says where the next begins.
    let mut at = start;
    while at < text.len() {
        let mut bytes = [0u8; LINE_BYTES];
        let Line { count, next } = scan(text, at, &mut bytes)?;
        let line = ItemLine { bytes, count };
        let kind = draft.kind_due(cells, bytes[0]);
        draft.item_fault(cells, kind, line)?;
        if kind == LineKind::End {
            if next < text.len() {
                return Err(after_end(text, next));
            }
            return Ok(draft.filled);
        }
        draft = Draft {
            lines: draft.lines + 1,
            filled: draft.append(cells, kind, line),
            top: draft.top.max(line.key(kind)),
        };
        at = next;
    }
    Err(InputCause::Misplaced)
}

// The cells of a header line's counts.
fn counted(bytes: [u8; LINE_BYTES]) -> [u16; MOST_CELLS]
    ensures { result ≡ filled_up (count_cells (counts_from bytes)) }
{
    let mut cells = [0u16; MOST_CELLS];
    cells[0] = number_at(bytes, 1);
    cells[1] = number_at(bytes, 3);
    cells[2] = number_at(bytes, 5);
    cells[3] = number_at(bytes, 7);
    cells
}

// A whole text.
pub fn read_table(text: &[u8]) -> Gathered
    ensures { result ≡ gathered (parsed text.now) }
{
    if text.is_empty() {
        return refused(InputCause::Misplaced);
    }
    let mut bytes = [0u8; LINE_BYTES];
    let Line { count, next } = match scan(text, 0, &mut bytes) {
        Ok(line) => line,
        Err(cause) => return refused(cause),
    };
    if count != HEADER_BYTES || bytes[0] != HEADER_KIND {
        return refused(InputCause::Misplaced);
    }
    let mut cells = counted(bytes);
    if !table_rules::counts_hold(cells[0], cells[1], cells[2], cells[3]) {
        return refused(InputCause::CountLimit);
    }
    match read_items(text, next, &mut cells) {
        Ok(count) => Gathered {
            read: Ok(count),
            cells,
        },
        Err(cause) => refused(cause),
    }
}
