// Text to loaded table. The cells are gathered first, so that a refused text leaves the destination as it was.
ghost use Rattle.std.specs.Prelude.{◌≡◌};
ghost use Rattle.destination.specs.Told.{stored_told};
ghost use Rattle.table.specs.Calls.{read_answer, read_cells};

use destination::store;
use refusal::Refusal;
use table_parser::Gathered;

// A table's text to its cells, from the front of the destination: the text's refusals, then 24.
pub fn read(text: &[u8], destination: &mut [u16]) -> Result<usize, Refusal>
    ensures { (stored_told result ≡ stored_told (read_answer text.now destination.old))
        × (destination.new ≡ read_cells text.now destination.old) }
{
    let Gathered { read, cells } = table_parser::read_table(text);
    match read {
        Ok(count) => store(&cells[..count], destination),
        Err(cause) => Err(Refusal::Input(cause)),
    }
}
