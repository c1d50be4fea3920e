// What is told of a word that cannot be used.
use utf8::Character;
use wordlist_spelling::{FaultKind, WORD_LETTERS};

// A text. Where it cannot be written, nothing is told. Bytes, and not what `write!` prints: a line that is told need not be UTF-8.
pub fn say(to: &impl Print, text: &[u8]) {
    let _ = to.write_all(text);
}

// A text, and behind it a number as the digits of its decimal form.
pub fn number(to: &impl Print, text: &[u8], n: usize) {
    say(to, text);
    let _ = to.print(n);
}

// Bytes as digits.
fn digits(to: &impl Print, bytes: &[u8]) {
    say(to, b"byte");
    for byte in bytes {
        let [high, low] = hexadecimal::encode(*byte);
        say(to, &[b' ', high, low]);
    }
}

// A character, as it is where it can be shown and is no control character, else by its bytes.
fn character(to: &impl Print, bytes: &[u8]) {
    match utf8::decode(bytes) {
        Some(Character { code, .. }) if !code.is_control() => {
            say(to, b"\"");
            say(to, bytes);
            say(to, b"\"");
        }
        _ => digits(to, bytes),
    }
}

// Which character of a line that is no word, at which place, is no letter, or is a letter too many.
pub fn fault(to: &impl Print, line: &[u8]) {
    let mut word = [0u8; WORD_LETTERS];
    let Err(fault) = wordlist_spelling::spell(line, &mut word) else {
        return;
    };
    number(to, b"character ", fault.letters + 1);
    say(to, b", ");
    character(to, &line[fault.at..fault.at + fault.size]);
    match fault.kind {
        FaultKind::TooLong => say(to, b", is a letter too many: a word has at most 64\n"),
        FaultKind::NoLetter => say(to, b", is no letter\n"),
    }
}
