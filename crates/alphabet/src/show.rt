// A sheet's faces, and its characters as they are shown.
ghost use Rattle.std.specs.Prelude.{◌≡◌, ◌+◌, ◌<◌, ◌≤◌, leb, length, MatchOption};
ghost use Rattle.std.proofs.lemmas.List.Edits.{sets};
ghost use Rattle.destination.specs.Stored.{stored_answer, stored_cells};
ghost use Rattle.alphabet.specs.Shown.{face_table, code_shown, shown_as, shown};

use destination::put;
use refusal::{Refusal, StateCause};

// For each ASCII character the letter whose mark it is.
const SHOWN: [Option<char>; 128] = [
    None,
    None,
    None,
    None,
    None,
    None,
    None,
    None,
    None,
    None,
    None,
    None,
    None,
    None,
    None,
    None,
    None,
    None,
    None,
    None,
    None,
    None,
    None,
    None,
    None,
    None,
    None,
    None,
    None,
    None,
    None,
    None,
    None,
    Some('ä'), // !
    Some('ö'), // "
    Some('ü'), // #
    Some('ß'), // $
    Some('à'), // %
    Some('á'), // &
    Some('â'), // '
    Some('ã'), // (
    Some('å'), // )
    Some('æ'), // *
    Some('ç'), // +
    Some('è'), // ,
    Some('é'), // -
    Some('ê'), // .
    Some('ë'), // /
    None,
    None,
    None,
    None,
    None,
    None,
    None,
    None,
    None,
    None,
    Some('ì'), // :
    Some('í'), // ;
    Some('î'), // <
    Some('ï'), // =
    Some('ð'), // >
    Some('ñ'), // ?
    Some('ò'), // @
    None,
    Some('ÿ'), // B
    Some('œ'), // C
    None,
    None,
    Some('š'), // F
    None,
    Some('ž'), // H
    None,
    None,
    None,
    None,
    None,
    None,
    None,
    None,
    None,
    None,
    None,
    None,
    None,
    None,
    None,
    None,
    None,
    None,
    Some('ó'), // [
    Some('ô'), // \
    Some('õ'), // ]
    Some('ø'), // ^
    Some('ù'), // _
    Some('ú'), // `
    None,
    None,
    None,
    None,
    None,
    None,
    None,
    None,
    None,
    None,
    None,
    None,
    None,
    None,
    None,
    None,
    None,
    None,
    None,
    None,
    None,
    None,
    None,
    None,
    None,
    None,
    Some('û'), // {
    None,
    Some('ý'), // }
    Some('þ'), // ~
    None,
];

// The faces of letters 1 to 63: a to z, a mark for each other letter, and the cut.
pub fn face_table() -> [u8; 63]
    ensures { result ≡ face_table }
{
    *b"abcdefghijklmnopqrstuvwxyz!\"#$%&'()*+,-./:;<=>?@[\\]^_`{}~BCFHJ|"
}

// The letter whose mark a character is.
fn letter_shown(character: u8) -> Option<char>
    ensures { MatchOption result (code_shown character ≡ 0) (λ letter. (letter ≡ code_shown character) × (128 ≤ letter) × (letter < 2048)) }
{
    *SHOWN.get(usize::from(character))?
}

// In how many bytes a character is shown.
fn size_shown(character: u8) -> usize
    ensures { result ≡ length (shown_as character) }
{
    match letter_shown(character) {
        Some(letter) => letter.len_utf8(),
        None => 1,
    }
}

// Whether text, as it is shown, has room in so many bytes.
fn has_room(text: &[u8], room: usize) -> bool
    ensures { result ≡ leb (length (shown text.now)) room }
{
    let mut left = room;
    for c in text {
        let size = size_shown(*c);
        if left < size {
            return false;
        }
        left -= size;
    }
    true
}

// A character as it is shown, and the place after it.
fn put_shown(destination: &mut [u8], at: usize, character: u8) -> usize
    requires { at + length (shown_as character) ≤ length destination.old }
    ensures { (result ≡ at + length (shown_as character)) × (destination.new ≡ sets destination.old at (shown_as character)) }
{
    let Some(letter) = letter_shown(character) else {
        destination[at] = character;
        return at + 1;
    };
    let mut room = [0; 4];
    let bytes = letter.encode_utf8(&mut room).as_bytes();
    put(destination, at, bytes);
    at + bytes.len()
}

// Text as it is shown, from the front of a destination, or 24.
pub fn show(text: &[u8], destination: &mut [u8]) -> Result<usize, Refusal>
    ensures { (result ≡ stored_answer (shown text.now) destination.old)
        × (destination.new ≡ stored_cells (shown text.now) destination.old) }
{
    if !has_room(text, destination.len()) {
        return Err(Refusal::State(StateCause::DestinationShort));
    }
    let mut at = 0;
    for c in text {
        at = put_shown(destination, at, *c);
    }
    Ok(at)
}
