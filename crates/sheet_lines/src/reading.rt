// A reading's lines: its ordinal, rows of 66 letters as their faces, and the lines on which it goes on.
ghost use Rattle.std.specs.Prelude.{◌≡◌, true, [], ◌∷◌, ◌++◌, map, ◌+◌, ◌*◌, ◌-◌, ◌≤◌, ◌<◌, length, take, replicate};
ghost use Rattle.std.proofs.lemmas.List.Edits.{sets};
ghost use Rattle.faces.specs.Faces.{face_of};
ghost use Rattle.faces.specs.Lent.{every, is_letter};
ghost use Rattle.sheet_lines.specs.Lines.{line_size, row_letters, filled, digit_at, ordinal_columns, reading_lines, lines_for, joined};

use crate::{LINE, put_end};
use destination::put;
use faces::FACES;

// Columns before the letters of a reading, and for its letters.
const LEAD: usize = 6;

const ROW: usize = 66;

// How many lines a reading of so many letters takes.
pub fn lines_for(letters: usize) -> usize
    ensures { result ≡ lines_for letters }
{
    1 + letters.saturating_sub(1) / ROW
}

// The digit of a number at a place, 10,000 to 10, or a blank where the number is smaller.
fn digit_at(n: usize, place: usize) -> u8
    requires { 0 < place }
    ensures { result ≡ digit_at n place }
{
    if n < place {
        b' '
    } else {
        b'0' + (n / place % 10) as u8
    }
}

// An ordinal, right-aligned in 5 columns, and the blank after it.
fn ordinal(n: usize) -> [u8; LEAD]
    ensures { result ≡ ordinal_columns n ++ (32 ∷ []) }
{
    [
        digit_at(n, 10000),
        digit_at(n, 1000),
        digit_at(n, 100),
        digit_at(n, 10),
        b'0' + (n % 10) as u8,
        b' ',
    ]
}

// Letters as their faces. By index: over `iter_mut().zip(..)` an invariant has no name for the cells that are written.
fn put_faces(sheet: &mut [u8], at: usize, letters: &[u8], faces: &[u8; FACES])
    requires letters_value { every is_letter letters.now ≡ true }
    requires letters_in_bounds { at + length letters.now ≤ length sheet.old }
    ensures { sheet.new ≡ sets sheet.old at (map (face_of faces.now) letters.now) }
{
    for (k, letter) in letters.iter().enumerate() {
        sheet[at + k] = faces[usize::from(*letter) - 1];
    }
}

// A line: what stands before the letters, at most 66 letters as their faces, and its line feed. The sheet goes along with the place in it: each
// step says by `sets` what it leaves of the whole sheet, which a part lent in its stead would have to be put back into at every call.
fn put_line(sheet: &mut [u8], at: usize, lead: &[u8; LEAD], letters: &[u8], faces: &[u8; FACES])
    requires letters_value { every is_letter letters.now ≡ true }
    requires letters_len_bound { (length letters.now ≤ row_letters) × (at + line_size ≤ length sheet.old) }
    ensures { sheet.new ≡ sets sheet.old at (filled (lead.now ++ map (face_of faces.now) letters.now)) }
{
    put(sheet, at, lead);
    let row = at + LEAD;
    put_faces(sheet, row, letters, faces);
    put_end(sheet, row + letters.len(), row + ROW);
}

// A reading's lines, and the place after them.
pub fn put_reading(
    sheet: &mut [u8],
    at: usize,
    n: usize,
    letters: &[u8],
    faces: &[u8; FACES],
) -> usize
    requires letters_value { every is_letter letters.now ≡ true }
    requires letters_in_bounds { at + line_size * lines_for (length letters.now) ≤ length sheet.old }
    ensures { (result ≡ at + line_size * lines_for (length letters.now))
        × (sheet.new ≡ sets sheet.old at (joined (reading_lines n (map (face_of faces.now) letters.now)))) }
{
    let (first, others) = letters.split_at(letters.len().min(ROW));
    put_line(sheet, at, &ordinal(n), first, faces);
    let mut to = at + LINE;
    for row in others.chunks(ROW) {
        put_line(sheet, to, b"      ", row, faces);
        to += LINE;
    }
    to
}
