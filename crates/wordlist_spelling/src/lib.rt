// A line of characters as a word.
#![tactic(auto)]

ghost use Rattle.wordlist_spelling.specs.Spelled.{SpelledIs};

use alphabet::letters::letter_of;
use utf8::Character;

// The most letters of a word.
pub const WORD_LETTERS: usize = 64;

// What a line has behind its letters: a character that is no letter, or a letter after 64 others.
#[derive(Clone, Copy, Debug, PartialEq, Eq)]
pub enum FaultKind {
    NoLetter,
    TooLong,
}

// How many letters a line has before its fault, and where that is; the character there has so many bytes.
#[derive(Clone, Copy, Debug, PartialEq, Eq)]
pub struct Fault {
    pub letters: usize,
    pub kind: FaultKind,
    pub at: usize,
    pub size: usize,
}

// A line's letters, to the front of `word`: how many they are, or the line's fault. From place to place by hand, since a character tells by
// itself how many bytes it has.
pub fn spell(line: &[u8], word: &mut [u8; WORD_LETTERS]) -> Result<usize, Fault>
    ensures { SpelledIs line.now result word.old word.new }
{
    let mut letters = 0;
    let mut at = 0;
    while at < line.len() {
        let Some(Character { code, size }) = utf8::decode(&line[at..]) else {
            return Err(Fault {
                letters,
                kind: FaultKind::NoLetter,
                at,
                size: 1,
            });
        };
        let Some(letter) = letter_of(u32::from(code)) else {
            return Err(Fault {
                letters,
                kind: FaultKind::NoLetter,
                at,
                size,
            });
        };
        if letters == WORD_LETTERS {
            return Err(Fault {
                letters,
                kind: FaultKind::TooLong,
                at,
                size,
            });
        }
        word[letters] = letter;
        letters += 1;
        at += size;
    }
    Ok(letters)
}
