// A table's text, read and written.
ghost use Rattle.std.specs.Prelude.{◌≡◌};
ghost use Rattle.table.specs.Calls.{read_answer, read_cells, write_answer, write_text};
ghost use Rattle.destination.specs.Told.{stored_told};
ghost use Rattle.capi_numbers.specs.Numbers.{reply_told};

use capi_numbers::{Reply, stored_numbers};

// Reads a table's text into cells. The length told is the number of cells; a refusal leaves all cells as they were.
#[unsafe(no_mangle)]
pub extern "C" fn rd_table_read(text: &[u8], table: &mut [u16]) -> Reply
    ensures { (reply_told result ≡ stored_told (read_answer text.now table.old))
        × (table.new ≡ read_cells text.now table.old) }
{
    let answer = table::reader::read(text, table);
    stored_numbers(answer)
}

// Writes the text of a table's cells. The length told is the number of bytes; a refusal leaves all bytes as they were.
#[unsafe(no_mangle)]
pub extern "C" fn rd_table_write(table: &[u16], text: &mut [u8]) -> Reply
    ensures { (reply_told result ≡ stored_told (write_answer table.now text.old))
        × (text.new ≡ write_text table.now text.old) }
{
    let answer = table::writer::write(table, text);
    stored_numbers(answer)
}
