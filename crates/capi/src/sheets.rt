// An answer sheet, written.
ghost use Rattle.std.specs.Prelude.{◌≡◌, not, eqb};
ghost use Rattle.destination.specs.Told.{stored_told};
ghost use Rattle.sheet.specs.Calls.{write_answer, write_sheet};
ghost use Rattle.capi_numbers.specs.Numbers.{reply_told};

use capi_numbers::{Reply, stored_numbers};
use faces::FACES;

// Lays readings out as an answer sheet; `ended` 0 is MORE, any other number END. The length told is the number of bytes; a refusal leaves
// all bytes as they were.
#[unsafe(no_mangle)]
pub extern "C" fn rd_sheet_write(
    readings: &[u8],
    faces: &[u8; FACES],
    ended: u32,
    sheet: &mut [u8],
) -> Reply
    ensures { (reply_told result ≡ stored_told (write_answer readings.now faces.now (not (eqb ended 0)) sheet.old))
        × (sheet.new ≡ write_sheet readings.now faces.now (not (eqb ended 0)) sheet.old) }
{
    let answer = sheet::writer::write(readings, faces, ended != 0, sheet);
    stored_numbers(answer)
}
