// The two lines of a word alone, as fixed byte strings: written as they are, and compared as they are.
ghost use Rattle.std.specs.Prelude.{◌≡◌};
ghost use Rattle.sheet_lines.specs.Lines.{filled};
ghost use Rattle.sheet.specs.Sheet.{opening_word, last_word};

use sheet_lines::LINE;

// The line that opens every sheet.
pub fn opening_line() -> [u8; LINE]
    ensures { result ≡ filled opening_word }
{
    *b"READINGS                                                                \n"
}

// The line that closes a sheet.
pub fn last_line(ended: bool) -> [u8; LINE]
    ensures { result ≡ filled (last_word ended) }
{
    if ended {
        *b"END                                                                     \n"
    } else {
        *b"MORE                                                                    \n"
    }
}
