// A loaded table written as text.
ghost use Rattle.std.specs.Prelude.{◌≡◌, ◌++◌, ◌+◌, ◌≤◌, length, drop};
ghost use Rattle.std.proofs.Math.Option.{some};
ghost use Rattle.table_format.specs.Loaded.{table_in, loaded};
ghost use Rattle.table_format.specs.Text.{text_of};
ghost use Rattle.destination.specs.Told.{stored_told};
ghost use Rattle.table.specs.Calls.{write_answer, write_text};

use refusal::{Refusal, StateCause};
use table_format::{
    CLASSES_AT, END_KIND, HEADER_LINE, INITIAL_KIND, INITIALS_AT, STATE_LINE, TERMINAL_KIND,
};

// How many characters the text of a loaded table has.
fn text_size(cells: &[u16]) -> usize
    requires { loaded cells.now ≡ some (table_in cells.now) }
    ensures { result ≡ length (text_of (table_in cells.now)) }
{
    let at = table_check::layout_of(cells);
    let classes = table_printer::class_size(&cells[CLASSES_AT..INITIALS_AT]);
    let states = at.initials(cells).len() + at.terminals(cells).len();
    let arcs = table_printer::arc_size(at.arcs(cells));
    HEADER_LINE + classes + STATE_LINE * states + arcs + STATE_LINE
}

// The whole text of a loaded table, line by line.
fn write_table(cells: &[u16], text: &mut [u8])
    requires cells_value { loaded cells.now ≡ some (table_in cells.now) }
    requires cells_in_bounds { length (text_of (table_in cells.now)) ≤ length text.old }
    ensures { text.new ≡ text_of (table_in cells.now) ++ drop (length (text_of (table_in cells.now))) text.old }
{
    let classes = table_classes::defined_count(&cells[CLASSES_AT..INITIALS_AT]);
    let lines = 1 + classes + cells[1] + cells[2] + cells[3];
    let at = table_check::layout_of(cells);
    table_printer::header_line(text, cells);
    let classes_end = table_printer::class_lines(
        text,
        HEADER_LINE,
        &cells[CLASSES_AT..INITIALS_AT],
    );
    let initials_end = table_printer::state_lines(
        text,
        classes_end,
        INITIAL_KIND,
        at.initials(cells),
    );
    let terminals_end = table_printer::state_lines(
        text,
        initials_end,
        TERMINAL_KIND,
        at.terminals(cells),
    );
    let arcs_end = table_printer::arc_lines(text, terminals_end, at.arcs(cells));
    table_printer::number_line(text, arcs_end, END_KIND, lines);
}

// A loaded table's text, from the front of the destination: 20, then 24.
pub fn write(cells: &[u16], text: &mut [u8]) -> Result<usize, Refusal>
    ensures { (stored_told result ≡ stored_told (write_answer cells.now text.old))
        × (text.new ≡ write_text cells.now text.old) }
{
    let Ok(_) = table_check::check(cells) else {
        return Err(Refusal::State(StateCause::LoadedTable));
    };
    let size = text_size(cells);
    if text.len() < size {
        return Err(Refusal::State(StateCause::DestinationShort));
    }
    write_table(cells, text);
    Ok(size)
}
