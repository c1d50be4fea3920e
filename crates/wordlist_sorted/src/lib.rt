// A list of words in dictionary order, each as a length byte and its letters: a word put in its place.
#![tactic(auto)]

ghost use Rattle.std.specs.Prelude.{◌≡◌, List, ℕ, ◌+◌, ◌≤◌, length};
ghost use Rattle.lexicon.specs.Words.{Word};
ghost use Rattle.lexicon.specs.Lexicon.{spelled};
ghost use Rattle.wordlist_sorted.specs.Sorted.{inserted};
ghost use Rattle.wordlist_sorted.specs.Placed.{list_bytes, Holds, PlaceIs};

use destination::put;
use lexicon::{ListWords, rises};

// Bytes of a list: room for 256 words of 64 letters.
pub const LIST_BYTES: usize = 16640;

// The place of a word, behind those that it is above: the byte before which it goes, or none where it is there already.
fn find(list: &[u8], word: &[u8]) -> Option<usize>
    requires { (ws : List Word) × (list.now ≡ spelled ws) }
    ensures { (ws : List Word) → list.now ≡ spelled ws → PlaceIs word.now ws result }
{
    let mut at = 0;
    for listed in ListWords(list) {
        if !rises(listed, word) {
            return if rises(word, listed) { Some(at) } else { None };
        }
        at += 1 + listed.len();
    }
    Some(at)
}

// A word put in its place in a list of so many bytes: how many there are then. For `wordlist` alone, whose contract asks nothing.
pub fn insert(list: &mut [u8; LIST_BYTES], used: usize, word: &[u8]) -> usize
    requires { ((before : List ℕ) × (ws : List Word) × Holds ws before list.old × (used ≡ length (spelled ws)))
        × (used + 1 + length word.now ≤ list_bytes) × (length word.now ≤ 64) }
    ensures { (before : List ℕ) (ws : List Word) → Holds ws before list.old → used ≡ length (spelled ws)
        → (result ≡ length (spelled (inserted word.now ws))) × Holds (inserted word.now ws) before list.new }
{
    let Some(at) = find(&list[..used], word) else {
        return used;
    };
    let first = at + 1;
    let end = first + word.len();
    list.copy_within(at..used, end);
    list[at] = word.len() as u8;
    put(list, first, word);
    used + 1 + word.len()
}
