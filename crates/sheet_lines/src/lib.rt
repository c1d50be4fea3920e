// Lines of an answer sheet, written in place: their parts, and (in `reading`) the lines of a reading.
#![tactic(auto)]

pub mod reading;

ghost use Rattle.std.specs.Prelude.{◌≡◌, [], ◌∷◌, ◌++◌, ◌+◌, ◌-◌, ◌≤◌, ◌<◌, length, replicate};
ghost use Rattle.std.proofs.lemmas.List.Edits.{sets};

// Characters of a line, with its line feed.
pub const LINE: usize = 73;

// Blanks up to the end of a line, and the line feed.
pub fn put_end(sheet: &mut [u8], at: usize, end: usize)
    requires { (at ≤ end) × (end < length sheet.old) }
    ensures { sheet.new ≡ sets sheet.old at (replicate (end - at) 32 ++ (10 ∷ [])) }
{
    sheet[at..end].fill(b' ');
    sheet[end] = b'\n';
}
