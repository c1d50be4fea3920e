// The lines of a text of words, one after another: those that hold a word, without the blanks at their ends.
#![tactic(auto)]

ghost use Rattle.std.specs.Prelude.{◌≡◌, ◌∷◌, suc, ◌≤◌, ◌<◌, length, take, drop};
ghost use Rattle.wordlist_lines.specs.Lines.{is_blank, mark_size, lines_in, unled, untrailed, passed_over, whole_lines, feeds};
ghost use Rattle.wordlist_lines.specs.Next.{NextIs};

// The mark of UTF-8 at a text's front.
const MARK: [u8; 3] = [0xEF, 0xBB, 0xBF];

// A line that holds a word: from where to where it does, how many lines are passed over before it, and where the line after it begins.
#[derive(Clone, Copy, Debug, PartialEq, Eq)]
pub struct NextLine {
    pub from: usize,
    pub end: usize,
    pub passed: usize,
    pub next: usize,
}

// How many characters at the front of a text are the mark of UTF-8.
pub fn mark_size(text: &[u8]) -> usize
    ensures { result ≡ mark_size text.now }
{
    if text.starts_with(&MARK) {
        MARK.len()
    } else {
        0
    }
}

// How much of a text is whole lines: the place after its last line feed, 0 where it has none.
pub fn whole_lines(text: &[u8]) -> usize
    ensures { result ≡ whole_lines text.now }
{
    match text.iter().rposition(|c| *c == b'\n') {
        Some(k) => k + 1,
        None => 0,
    }
}

// How many line feeds a text has.
pub fn count_lines(text: &[u8]) -> usize
    ensures { result ≡ feeds text.now }
{
    text.iter().filter(|c| **c == b'\n').count()
}

// How many characters of a text stand before its first line feed, all where it has none.
fn line_size(text: &[u8]) -> usize
    requires { 0 < length text.now }
    ensures { (result ≤ length text.now) × (lines_in text.now ≡ take result text.now ∷ lines_in (drop (suc result) text.now)) }
{
    text.iter().position(|c| *c == b'\n').unwrap_or(text.len())
}

// Whether a character is a blank, a tabulator or a carriage return.
fn is_blank(character: u8) -> bool
    ensures { result ≡ is_blank character }
{
    matches!(character, b' ' | b'\t' | b'\r')
}

// How many characters of a line are left without the blanks at its end.
fn back(line: &[u8]) -> usize
    ensures { (result ≤ length line.now) × (take result line.now ≡ untrailed line.now) }
{
    match line.iter().rposition(|c| !is_blank(*c)) {
        Some(k) => k + 1,
        None => 0,
    }
}

// How many blanks stand at a line's front.
fn front(line: &[u8]) -> usize
    ensures { (result ≤ length line.now) × (drop result line.now ≡ unled line.now) }
{
    line.iter()
        .position(|c| !is_blank(*c))
        .unwrap_or(line.len())
}

// Whether a line without blanks at its ends is passed over.
fn passed_over(line: &[u8]) -> bool
    ensures { result ≡ passed_over line.now }
{
    matches!(line, [] | [b'#', ..])
}

// The next line that holds a word, after a place at which a line begins. From place to place by hand, since places are what is told.
pub fn next_line(text: &[u8], at: usize) -> Option<NextLine>
    ensures { NextIs result text.now at }
{
    let mut passed = 0;
    let mut from = at;
    while from < text.len() {
        let end = from + line_size(&text[from..]);
        let last = from + back(&text[from..end]);
        let first = from + front(&text[from..last]);
        let next = (end + 1).min(text.len());
        if !passed_over(&text[first..last]) {
            return Some(NextLine {
                from: first,
                end: last,
                passed,
                next,
            });
        }
        passed += 1;
        from = next;
    }
    None
}
