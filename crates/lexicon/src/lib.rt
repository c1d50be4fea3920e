// A list of words, each as a length byte and its letters, checked: how many states its letter tree has, or the first bad word's refusal.
#![tactic(auto)]

ghost use Rattle.std.specs.Prelude.{◌≡◌, ◌≤◌, length};
ghost use Rattle.std.specs.Iterator.{at_most};
ghost use Rattle.lexicon.specs.Words.{letter_holds, good_word, rises};
ghost use Rattle.lexicon.specs.Lexicon.{most_states, lexicon, NextWord};
ghost use Rattle.lexicon.specs.Check.{common, word_listing, listing};

use refusal::InputCause;

// The most states of a table.
pub const MOST_STATES: usize = 256;

// The most letters of a word.
const MOST_LETTERS: usize = 64;

// The highest letter of a word; 63 marks a cut.
const MOST_LETTER: u8 = 62;

// The words of a list's bytes, each a length byte and its letters; none is left at the end, and before a word that is cut short.
#[derive(Drop)]
pub struct ListWords<'a>(pub &'a [u8]);

impl<'a> Iterator for ListWords<'a> {
    type Item = &'a [u8];

    ghost next_gives = { NextWord (λ s. s.0.now) };

    ghost remaining = { λ s. at_most (length s.0.now) };

    fn next(&mut self) -> Option<&'a [u8]> {
        let (letters, rest) = self.0.split_first()?;
        let (word, after) = rest.split_at_checked(usize::from(*letters))?;
        self.0 = after;
        Some(word)
    }
}

fn is_letter(letter: u8) -> bool
    ensures { result ≡ letter_holds letter }
{
    (1..=MOST_LETTER).contains(&letter)
}

// Whether a word has 1 to 64 letters from 1 to 62.
fn word_holds(word: &[u8]) -> bool
    ensures { result ≡ good_word word.now }
{
    (1..=MOST_LETTERS).contains(&word.len()) && word.iter().all(|letter| is_letter(*letter))
}

// How many letters two words have in common at the front. Both are cut to the same length first, so that one test a turn ends the walk.
pub fn common(before: &[u8], word: &[u8]) -> usize
    ensures { result ≡ common before.now word.now }
{
    let most = before.len().min(word.len());
    before[..most]
        .iter()
        .zip(&word[..most])
        .take_while(|(x, y)| **x == **y)
        .count()
}

// Whether a word is above the one before it, with which it has so many first letters in common: the letters behind these decide.
#[tactic(auto, using(crate::proofs::Comparing::rises_by_rest))]
fn rises_behind(before: &[u8], word: &[u8], shared: usize) -> bool
    requires { shared ≡ common before.now word.now }
    ensures { result ≡ rises before.now word.now }
{
    let last = &before[shared..];
    let letters = &word[shared..];
    last < letters
}

// Whether a word is above the one before it.
pub fn rises(before: &[u8], word: &[u8]) -> bool
    ensures { result ≡ rises before.now word.now }
{
    rises_behind(before, word, common(before, word))
}

// A word after the one before it, in a tree of so many states: how many there are with it.
fn judge(before: &[u8], word: &[u8], states: usize) -> Result<usize, InputCause>
    requires { states ≤ most_states }
    ensures { result ≡ word_listing before.now word.now states }
{
    if !word_holds(word) {
        return Err(InputCause::ListedWord);
    }
    let shared = common(before, word);
    if !rises_behind(before, word, shared) {
        return Err(InputCause::WordOrder);
    }
    let grown = states + (word.len() - shared);
    if MOST_STATES < grown {
        return Err(InputCause::StateLimit);
    }
    Ok(grown)
}

// A whole list: the states of its letter tree, or 30, 31, 32. Before the first word stands the empty one.
pub fn check(words: &[u8]) -> Result<usize, InputCause>
    ensures { result ≡ listing (lexicon words.now) }
{
    let mut states = 1;
    let mut before: &[u8] = &[];
    let mut listed = ListWords(words);

    // By `next`: after the loop it tells whether a word is cut short.
    while let Some(word) = listed.next() {
        states = judge(before, word, states)?;
        before = word;
    }
    if listed.0.is_empty() {
        Ok(states)
    } else {
        Err(InputCause::ListedWord)
    }
}
