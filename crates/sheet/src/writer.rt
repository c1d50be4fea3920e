// A sheet written: 33, then 24, then its lines in place.
ghost use Rattle.std.specs.Prelude.{◌≡◌, true, ◌++◌, ◌+◌, ◌*◌, ◌≤◌, length, drop};
ghost use Rattle.std.proofs.lemmas.List.Edits.{sets};
ghost use Rattle.destination.specs.Told.{stored_told};
ghost use Rattle.faces.specs.Lent.{list_holds, list_of};
ghost use Rattle.sheet_lines.specs.Lines.{line_size, joined};
ghost use Rattle.sheet.specs.Sheet.{list_lines, sheet_of, lines_taken, sheet_size};
ghost use Rattle.sheet.specs.Calls.{sheet_holds, write_answer, write_sheet};

use crate::ends::{last_line, opening_line};
use destination::put;
use faces::list::{Readings, list_holds};
use faces::{FACES, faces_hold};
use refusal::{InputCause, Refusal, StateCause};
use sheet_lines::LINE;
use sheet_lines::reading::{lines_for, put_reading};

// Whether a sheet can be made, or 33 is to be given.
fn holds(readings: &[u8], faces: &[u8]) -> bool
    ensures { result ≡ sheet_holds readings.now faces.now }
{
    faces_hold(faces) && list_holds(readings)
}

// How many bytes the sheet of the readings that are lent has.
fn size_of(readings: &[u8]) -> usize
    requires { list_holds readings.now ≡ true }
    ensures { result ≡ sheet_size (list_of readings.now) }
{
    let mut lines = 2;
    for reading in Readings(readings) {
        lines += lines_for(reading.len());
    }
    LINE * lines
}

// The lines of the readings that are lent, and the place after them.
fn put_readings(sheet: &mut [u8], at: usize, readings: &[u8], faces: &[u8; FACES]) -> usize
    requires readings_value { list_holds readings.now ≡ true }
    requires readings_in_bounds { at + line_size * lines_taken (list_of readings.now) ≤ length sheet.old }
    ensures { (result ≡ at + line_size * lines_taken (list_of readings.now))
        × (sheet.new ≡ sets sheet.old at (joined (list_lines faces.now 1 (list_of readings.now)))) }
{
    let mut to = at;
    for (before, reading) in Readings(readings).enumerate() {
        to = put_reading(sheet, to, before + 1, reading, faces);
    }
    to
}

// The whole sheet, line by line.
fn write_lines(readings: &[u8], faces: &[u8; FACES], ended: bool, sheet: &mut [u8])
    requires readings_value { list_holds readings.now ≡ true }
    requires readings_in_bounds { sheet_size (list_of readings.now) ≤ length sheet.old }
    ensures { sheet.new ≡ sheet_of faces.now (list_of readings.now) ended
        ++ drop (sheet_size (list_of readings.now)) sheet.old }
{
    put(sheet, 0, &opening_line());
    let end = put_readings(sheet, LINE, readings, faces);
    put(sheet, end, &last_line(ended));
}

// Lays the readings out, each lent as its length (two bytes, high first) and its letters, in the faces of letters 1 to 63.
pub fn write(
    readings: &[u8],
    faces: &[u8; FACES],
    ended: bool,
    sheet: &mut [u8],
) -> Result<usize, Refusal>
    ensures { (stored_told result ≡ stored_told (write_answer readings.now faces.now ended sheet.old))
        × (sheet.new ≡ write_sheet readings.now faces.now ended sheet.old) }
{
    if !holds(readings, faces) {
        return Err(Refusal::Input(InputCause::SheetFault));
    }
    let size = size_of(readings);
    if sheet.len() < size {
        return Err(Refusal::State(StateCause::DestinationShort));
    }
    write_lines(readings, faces, ended, sheet);
    Ok(size)
}
