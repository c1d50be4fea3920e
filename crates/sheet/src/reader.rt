// A sheet's opening and last line, compared exactly with those that are written.
ghost use Rattle.std.specs.Prelude.{◌≡◌};
ghost use Rattle.sheet.specs.Read.{opens_with, closes_with, last_word_in};

use crate::LastWord;
use crate::ends::{last_line, opening_line};

// Whether text opens as a sheet does.
pub fn opens(text: &[u8]) -> bool
    ensures { result ≡ opens_with text.now }
{
    text.starts_with(&opening_line())
}

// Whether text closes as a sheet of a run that ended does, or of one that did not.
fn closes(text: &[u8], ended: bool) -> bool
    ensures { result ≡ closes_with text.now ended }
{
    text.ends_with(&last_line(ended))
}

// What the last line of text says, where it is one of the two.
pub fn last_word(text: &[u8]) -> Option<LastWord>
    ensures { result ≡ last_word_in text.now }
{
    if closes(text, true) {
        Some(LastWord::End)
    } else if closes(text, false) {
        Some(LastWord::More)
    } else {
        None
    }
}
