// The lines that a session prints, each stored from the front of a buffer.
#![tactic(auto)]

ghost use Rattle.std.specs.Prelude.{◌∷◌, ◌++◌, ◌+◌, ◌≤◌, length};
ghost use Rattle.table_format.specs.Line.{characters_of};
ghost use Rattle.table_format.specs.Text.{number};
ghost use Rattle.session_replies.specs.Lines.{reading_line, end_line, limit_line, refusal_line, output_letters, LineStored};

use refusal::Refusal;

// The kinds of the lines, each by the byte that its lines begin with.
#[derive(Clone, Copy, Debug, PartialEq, Eq)]
pub enum LineKind {
    Reading = 0x20,
    Limit = 0x2D,
    Refusal = 0x2E,
    End = 0x2F,
}

// The letters of output, at most so many to a reading.
pub const OUTPUT_LETTERS: usize = 4096;

// The characters of the longest line: 5 bytes and the letters, two digits each, and a line feed.
pub const LINE_CHARACTERS: usize = 2 * (5 + OUTPUT_LETTERS) + 1;

// A line's text, from the front of a buffer: some bytes, then others. How many characters it has.
pub fn put_line(text: &mut [u8], head: &[u8], tail: &[u8]) -> usize
    requires { characters_of (length head.now + length tail.now) ≤ length text.old }
    ensures { LineStored (head.now ++ tail.now) result text.old text.new }
{
    table_printer::put_bytes(text, 0, head);
    table_printer::put_line(text, 2 * head.len(), tail)
}

// A line of a kind and a count.
pub fn count_line(text: &mut [u8], kind: u8, count: u16) -> usize
    requires { characters_of 3 ≤ length text.old }
    ensures { LineStored (kind ∷ number count) result text.old text.new }
{
    let [high, low] = count.to_be_bytes();
    put_line(text, &[kind, high, low], &[])
}

// The line at the end, with the count of the readings.
pub fn end_line(text: &mut [u8], count: u16) -> usize
    requires { characters_of 3 ≤ length text.old }
    ensures { LineStored (end_line count) result text.old text.new }
{
    count_line(text, LineKind::End as u8, count)
}

// The line at the limit of readings or calls, with the count of the readings.
pub fn limit_line(text: &mut [u8], count: u16) -> usize
    requires { characters_of 3 ≤ length text.old }
    ensures { LineStored (limit_line count) result text.old text.new }
{
    count_line(text, LineKind::Limit as u8, count)
}

// The line of a refusal.
pub fn refusal_line(text: &mut [u8], refusal: Refusal) -> usize
    requires { characters_of 2 ≤ length text.old }
    ensures { LineStored (refusal_line refusal) result text.old text.new }
{
    put_line(text, &[LineKind::Refusal as u8, refusal.number()], &[])
}

// The line of a reading.
pub fn reading_line(text: &mut [u8], ordinal: u16, letters: &[u8]) -> usize
    requires { (characters_of (5 + length letters.now) ≤ length text.old) × (length letters.now ≤ output_letters) }
    ensures { LineStored (reading_line ordinal letters.now) result text.old text.new }
{
    let [ordinal_high, ordinal_low] = ordinal.to_be_bytes();
    let [size_high, size_low] = (letters.len() as u16).to_be_bytes();
    let kind = LineKind::Reading as u8;
    put_line(
        text,
        &[kind, ordinal_high, ordinal_low, size_high, size_low],
        letters,
    )
}
