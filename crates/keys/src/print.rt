// The keys of an exam's words, one after another.
ghost use Rattle.std.specs.Prelude.{◌≡◌, ◌+◌, ◌*◌, ◌<◌, ◌≤◌, length, IfOk, IfSome};
ghost use Rattle.keys.specs.Printed.{sheet_lines};

use crate::tell;
use crate::tell::say;
use refusal::Refusal;
use sheet_lines::LINE;
use std::io;
use table_format::MOST_CELLS;
use wordlist_lines::NextLine;
use wordlist_spelling::WORD_LETTERS;

// Characters of the longest key: 1,000 readings of two lines each between its first and its last line.
pub const SHEET: usize = 2002 * LINE;

// Output that failed, or a key that is refused, as none over a list's table is.
#[derive(Clone, Copy)]
struct Failed;

impl From<io::Error> for Failed {
    fn from(_error: io::Error) -> Failed {
        Failed
    }
}

impl From<Refusal> for Failed {
    fn from(_refusal: Refusal) -> Failed {
        Failed
    }
}

// How many words were read, readings shown and words refused.
#[derive(Clone, Copy)]
struct Tally {
    words: usize,
    readings: usize,
    refused: usize,
}

impl Tally {
    // A tally with one word more: so many readings of it, or none where it is refused.
    fn with(self, readings: Option<usize>) -> Tally
        requires { (self.words < 65536) × (self.refused < 65536) × (self.readings ≤ 65536 * sheet_lines) × IfSome readings (λ count. count ≤ sheet_lines) }
        ensures { (result.words ≤ self.words + 1) × (result.refused ≤ self.refused + 1) × (result.readings ≤ self.readings + sheet_lines) }
    {
        let words = self.words + 1;
        match readings {
            Some(count) => Tally {
                words,
                readings: self.readings + count,
                ..self
            },
            None => Tally {
                words,
                refused: self.refused + 1,
                ..self
            },
        }
    }
}

// How many readings a sheet shows: each has one line with a digit in column 5, and no other line after the first has one.
fn readings_on(sheet: &[u8]) -> usize
    ensures { 73 * result ≤ length sheet.now }
{
    let mut count = 0;
    for k in 1..sheet.len() / LINE {
        if sheet[k * LINE + 4] != b' ' {
            count += 1;
        }
    }
    count
}

// Room for the longest key.
fn sheet_room() -> [u8; SHEET]
    ensures { 146146 ≡ length result }
{
    [0; SHEET]
}

// Room for what is shown of it: a character is shown in at most two bytes.
fn text_room() -> [u8; 2 * SHEET]
    ensures { 292292 ≡ length result }
{
    [0; 2 * SHEET]
}

// The key of a word, as it is shown, and an empty line: how many readings it shows.
fn key(out: &impl Print, table: &[u16], word: &[u8]) -> Result<usize, Failed>
    ensures { IfOk result (λ count. count ≤ sheet_lines) }
{
    let faces = alphabet::show::face_table();
    let mut sheet = sheet_room();
    let size = key_sheet::write(table, word, &faces, &mut sheet)?;
    let lines = &sheet[..size];
    let mut text = text_room();
    let bytes = alphabet::show::show(lines, &mut text)?;
    out.write_all(&text[..bytes])?;
    out.write_all(b"\n")?;
    Ok(readings_on(lines))
}

// What is wrong with the word of a line, on standard error with the line's number, and in the place of its key.
fn refuse(out: &impl Print, err: &impl Print, line: &[u8], number: usize) -> Result<(), Failed> {
    tell::number(err, b"keys: line ", number);
    say(err, b": ");
    tell::fault(err, line);
    say(out, b"no key: ");
    tell::fault(out, line);
    out.write_all(b"\n")?;
    Ok(())
}

// The word of a line as it is given, and its key, or what is wrong with it: how many readings are shown, none where the word is refused.
fn line(
    out: &impl Print,
    err: &impl Print,
    table: &[u16],
    line: &[u8],
    number: usize,
) -> Result<Option<usize>, Failed>
    ensures { IfOk result (λ readings. IfSome readings (λ count. count ≤ sheet_lines)) }
{
    out.write_all(line)?;
    out.write_all(b"\n")?;
    let mut word = [0u8; WORD_LETTERS];
    let Ok(letters) = wordlist_spelling::spell(line, &mut word) else {
        refuse(out, err, line, number)?;
        return Ok(None);
    };
    let count = key(out, table, &word[..letters])?;
    Ok(Some(count))
}

// The last line on standard error.
fn sum_up(err: &impl Print, tally: Tally) {
    tell::number(err, b"keys: words ", tally.words);
    tell::number(err, b", readings ", tally.readings);
    tell::number(err, b", refused ", tally.refused);
    say(err, b"\n");
}

// The keys of a text's words, and the last line on standard error.
pub fn keys(out: &impl Print, err: &impl Print, table: &[u16; MOST_CELLS], text: &[u8])
    requires { length text.now ≤ 65536 }
{
    let mut tally = Tally {
        words: 0,
        readings: 0,
        refused: 0,
    };
    let mut number = 1;
    let mut at = wordlist_lines::mark_size(text);
    while let Some(
        NextLine {
            from,
            end,
            passed,
            next,
        },
    ) = wordlist_lines::next_line(text, at)
    {
        number += passed;
        let Ok(readings) = line(out, err, table, &text[from..end], number) else {
            say(err, b"keys: standard output cannot be written\n");
            return;
        };
        tally = tally.with(readings);
        number += 1;
        at = next;
    }
    sum_up(err, tally);
}
