// One line of a text: its digits, two to a byte, up to its line feed; numbers and an arc out of the bytes of a table's line.
#![tactic(auto)]

ghost use Rattle.std.specs.Prelude.{◌≡◌, ◌+◌, ◌<◌, drop};
ghost use Rattle.std.proofs.lemmas.List.Edits.{sets};
ghost use Rattle.table_format.specs.Text.{line_bytes};
ghost use Rattle.table_format.specs.Cells.{arc_held};
ghost use Rattle.table_format.specs.Parse.{number_at, arc_from};
ghost use Rattle.table_scanner.specs.Scan.{first_line, scanned_as, leading_bytes};

use refusal::InputCause;
use table_format::{Arc, LINE_BYTES};

// What a well-formed line of a text says: how many bytes, and where the next line begins.
#[derive(Clone, Copy)]
pub struct Line {
    pub count: usize,
    pub next: usize,
}

// The line that begins at `start`; its bytes go to the front of `bytes`, those for which there is room.
pub fn scan(text: &[u8], start: usize, bytes: &mut [u8]) -> Result<Line, InputCause>
    ensures { (result ≡ scanned_as start (first_line (drop start text.now)))
        × (bytes.new ≡ sets bytes.old 0 (leading_bytes (first_line (drop start text.now)).chars)) }
{
    // By index: a line feed is one character and a byte is two, so pairs cut from the text would run into the next line.
    let mut count = 0;
    let mut at = start;
    while at < text.len() {
        let high = text[at];
        if high == b'\n' {
            if count == 0 {
                return Err(InputCause::Malformed);
            }
            return Ok(Line {
                count,
                next: at + 1,
            });
        }
        if text.len() <= at + 1 {
            return Err(InputCause::Malformed);
        }
        let Some(b) = hexadecimal::decode(high, text[at + 1]) else {
            return Err(InputCause::Malformed);
        };
        if count < bytes.len() {
            bytes[count] = b;
        }
        count += 1;
        at += 2;
    }
    Err(InputCause::Malformed)
}

// The number of two bytes at a place of a table's line, high byte first.
pub fn number_at(bytes: [u8; LINE_BYTES], at: usize) -> u16
    requires { at + 1 < line_bytes }
    ensures { result ≡ number_at bytes at }
{
    u16::from_be_bytes([bytes[at], bytes[at + 1]])
}

// The arc of an arc line. One without a penalty is shorter, and the bytes after it are 0.
pub fn arc_in(bytes: [u8; LINE_BYTES]) -> Arc
    ensures { result ≡ arc_held (arc_from bytes) }
{
    Arc {
        source: number_at(bytes, 1),
        upper: u16::from(bytes[3]),
        lower: u16::from(bytes[4]),
        target: number_at(bytes, 5),
        penalty: u16::from(bytes[7]),
    }
}
