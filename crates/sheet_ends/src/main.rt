// Puts texts to `opens` and `last_word`: a sheet, each text that has one character of its opening or its last line set to some byte, and
// each beginning of it. Prints how many are taken to open with `READINGS`, and to close with `END` or with `MORE`.
#![tactic(auto)]

use faces::FACES;
use sheet::LastWord;
use sheet::reader::{last_word, opens};
use sheet::writer::write;
use sheet_lines::LINE;
use std::fmt;
use std::ops::Range;

// Characters of a sheet: the readings take three of its five lines.
const SHEET: usize = 5 * LINE;

// How many texts are taken for each.
#[derive(Clone, Copy, Default)]
struct Tally {
    readings: u32,
    end: u32,
    more: u32,
}

impl Tally {
    // One text more. No count comes near the largest number, so none wraps.
    fn count(&mut self, text: &[u8]) {
        if opens(text) {
            self.readings = self.readings.wrapping_add(1);
        }
        match last_word(text) {
            Some(LastWord::End) => self.end = self.end.wrapping_add(1),
            Some(LastWord::More) => self.more = self.more.wrapping_add(1),
            None => {}
        }
    }
}

impl fmt::Display for Tally {
    fn fmt<W: fmt::Write>(&self, f: &mut fmt::Formatter<W>) -> fmt::Result {
        let Tally {
            readings,
            end,
            more,
        } = self;
        write!(f, "READINGS {readings}, END {end}, MORE {more}")
    }
}

// The sheet of two readings, one of 67 letters, which goes on in a second line, and an empty one.
fn sheet_of(ended: bool) -> [u8; SHEET] {
    let readings =
        b"\x00\x43123456789012345678901234567890123456789012345678901234567890123456!\x00\x00";
    let faces: [u8; FACES] = *b"abcdefghijklmnopqrstuvwxyz0123456789ABCDEFGHIJKLMNOPQRSTUVWXYZ|";
    let mut sheet = [0; SHEET];
    let _ = write(readings, &faces, ended, &mut sheet);
    sheet
}

fn tell(rt: &impl Print, texts: &str, tally: Tally) {
    let _ = println!(rt; "{texts}: {tally}");
}

// The sheet as it is.
fn whole(sheet: &[u8; SHEET]) -> Tally {
    let mut tally = Tally::default();
    tally.count(sheet);
    tally
}

// Each byte in each of some places, where the sheet has them.
fn any_set(sheet: &[u8; SHEET], places: Range<usize>) -> Tally {
    let mut tally = Tally::default();
    for at in places {
        for c in 0..=u8::MAX {
            let mut text = *sheet;
            if let Some(character) = text.get_mut(at) {
                *character = c;
            }
            tally.count(&text);
        }
    }
    tally
}

// Says of a text that closes with a word how many characters it has.
fn tell_word(rt: &impl Print, text: &[u8]) {
    let word = match last_word(text) {
        Some(LastWord::End) => "END",
        Some(LastWord::More) => "MORE",
        None => return,
    };
    let _ = println!(rt; "{word} after {} characters", text.len());
}

// Each beginning, from no characters to all.
fn beginnings(rt: &impl Print, sheet: &[u8; SHEET]) -> Tally {
    let mut tally = Tally::default();
    for end in 0..=SHEET {
        let text = &sheet[..end];
        tell_word(rt, text);
        tally.count(text);
    }
    tally
}

fn examine(rt: &impl Print, sheet: &[u8; SHEET]) {
    let _ = rt.write_all(sheet);
    tell(rt, "as it is", whole(sheet));
    tell(rt, "opening line, a byte set", any_set(sheet, 0..LINE));
    tell(
        rt,
        "last line, a byte set",
        any_set(sheet, SHEET - LINE..SHEET),
    );
    tell(rt, "beginnings", beginnings(rt, sheet));
}

fn main(rt: HostRuntime) {
    examine(&rt, &sheet_of(true));
    examine(&rt, &sheet_of(false));
}
