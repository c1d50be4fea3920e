// A word list, made a table.
ghost use Rattle.std.specs.Prelude.{◌≡◌};
ghost use Rattle.destination.specs.Told.{stored_told};
ghost use Rattle.trie.specs.Calls.{build_answer, build_cells};
ghost use Rattle.capi_numbers.specs.Numbers.{reply_told};

use capi_numbers::{Reply, stored_numbers};

// Builds the letter tree's table of a list of words, each a length byte and its letters. The length told is the number of cells; a refusal
// leaves all cells as they were.
#[unsafe(no_mangle)]
pub extern "C" fn rd_words_read(words: &[u8], table: &mut [u16]) -> Reply
    ensures { (reply_told result ≡ stored_told (build_answer words.now table.old))
        × (table.new ≡ build_cells words.now table.old) }
{
    let answer = trie::builder::build(words, table);
    stored_numbers(answer)
}
