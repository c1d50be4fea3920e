// The list's text to its table; what is wrong with it is told.
ghost use Rattle.std.specs.Prelude.{◌≤◌, length};

use crate::tell::say;
use crate::{MOST_INPUT, tell};
use table_format::MOST_CELLS;
use wordlist::{FaultKind, ListFault};
use wordlist_sorted::LIST_BYTES;

// The file and the line that is spoken of.
fn place(err: &impl Print, path: &[u8], line: usize) {
    say(err, b"keys: ");
    say(err, path);
    tell::number(err, b", line ", line);
}

// The same with the line's word.
fn place_of_word(err: &impl Print, path: &[u8], line: usize, word: &[u8]) {
    place(err, path, line);
    say(err, b", \"");
    say(err, word);
    say(err, b"\": ");
}

// What there is too much of, and how many words fit.
fn too_long(err: &impl Print, what: &[u8], count: usize) {
    say(err, what);
    tell::number(err, b"; words before it that fit: ", count);
    say(err, b"\n");
}

// How much of a text is looked at: all of it, or the whole lines among so many bytes.
fn looked_at(text: &[u8]) -> usize
    ensures { result ≤ length text.now }
{
    if text.len() <= MOST_INPUT {
        text.len()
    } else {
        wordlist_lines::whole_lines(&text[..MOST_INPUT])
    }
}

// The table of a list's text. Whether it is made; what is wrong with the first line that cannot be used is told. Over a list that was gathered whole it
// always is: the list holds, and every table has room.
pub fn load(err: &impl Print, path: &[u8], text: &[u8], table: &mut [u16; MOST_CELLS]) -> bool {
    let limit = looked_at(text);
    let mut list = [0u8; LIST_BYTES];
    match wordlist::gather(&text[..limit], &mut list) {
        Err(ListFault { kind, line }) => {
            let word = &text[line.from..line.end];
            place_of_word(err, path, line.number, word);
            match kind {
                FaultKind::BadWord => tell::fault(err, word),
                FaultKind::TooMany => too_long(
                    err,
                    b"the list is too long with this word, over 256 states",
                    line.count,
                ),
            }
            false
        }
        Ok(words) => {
            if limit < text.len() {
                place(err, path, wordlist_lines::count_lines(&text[..limit]) + 1);
                too_long(
                    err,
                    b": the list is too long here, over 65,536 bytes",
                    words.count,
                );
                return false;
            }
            trie::builder::build(&list[..words.bytes], table).is_ok()
        }
    }
}
