// The words of a text, sorted and each once, as a list for the letter tree; or the first line that cannot be used.
#![tactic(auto)]

ghost use Rattle.std.specs.Prelude.{◌≡◌, true, List, ℕ, ◌≤◌, ◌<◌, leb, length, take};
ghost use Rattle.lexicon.specs.Words.{Word, list_holds};
ghost use Rattle.lexicon.specs.Beginnings.{beginnings};
ghost use Rattle.lexicon.specs.Lexicon.{spelled, most_states};
ghost use Rattle.lexicon.specs.FirstBad.{Kept};
ghost use Rattle.wordlist_sorted.specs.Placed.{Holds};
ghost use Rattle.wordlist.specs.declared.FaultKind.TheVariants.{BadWord};
ghost use Rattle.wordlist.specs.Gathered.{AddedIs, fate, GatheredIs};

use wordlist_lines::NextLine;
use wordlist_sorted::LIST_BYTES;
use wordlist_spelling::{Fault, WORD_LETTERS};

// Why a line cannot be used: its word is bad, or there are too many states with it.
#[derive(Clone, Copy, Debug, PartialEq, Eq)]
pub enum FaultKind {
    BadWord,
    TooMany,
}

impl From<Fault> for FaultKind {
    ghost from_gives = { λ _ kind. kind ≡ BadWord };

    fn from(_fault: Fault) -> FaultKind {
        FaultKind::BadWord
    }
}

// The line that cannot be used: its number, from where to where its word stands in the text, and how many words stand before it.
#[derive(Clone, Copy, Debug, PartialEq, Eq)]
pub struct BadLine {
    pub number: usize,
    pub from: usize,
    pub end: usize,
    pub count: usize,
}

// The first line that cannot be used, and why.
#[derive(Clone, Copy, Debug, PartialEq, Eq)]
pub struct ListFault {
    pub kind: FaultKind,
    pub line: BadLine,
}

// So many words, in so many bytes of the list.
#[derive(Clone, Copy, Debug, PartialEq, Eq)]
pub struct Words {
    pub count: usize,
    pub bytes: usize,
}

// Whether the letter tree of a list in so many bytes has few enough states.
fn fits(list: &[u8], bytes: usize) -> bool
    requires { bytes ≤ length list.now }
    ensures { (ws : List Word) → take bytes list.now ≡ spelled ws → list_holds ws ≡ true → result ≡ leb (length (beginnings ws)) most_states }
{
    lexicon::check(&list[..bytes]).is_ok()
}

// A line's word put in its place in a list: the list's bytes then.
fn add(line: &[u8], list: &mut [u8; LIST_BYTES], bytes: usize) -> Result<usize, FaultKind>
    requires { (0 < length line.now) × ((before : List ℕ) × (ws : List Word) × Kept ws × Holds ws before list.old × (bytes ≡ length (spelled ws))) }
    ensures { (before : List ℕ) (ws : List Word) → Kept ws → Holds ws before list.old → bytes ≡ length (spelled ws)
        → AddedIs result line.now ws before list.new }
{
    let mut word = [0u8; WORD_LETTERS];
    let letters = wordlist_spelling::spell(line, &mut word)?;
    let grown = wordlist_sorted::insert(list, bytes, &word[..letters]);
    if fits(list, grown) {
        Ok(grown)
    } else {
        Err(FaultKind::TooMany)
    }
}

// The words of a text, to the front of a list.
pub fn gather(text: &[u8], list: &mut [u8; LIST_BYTES]) -> Result<Words, ListFault>
    ensures { GatheredIs (fate text.now) text.now result list.old list.new }
{
    let mut at = wordlist_lines::mark_size(text);
    let mut before = 0;
    let mut count = 0;
    let mut bytes = 0;
    while let Some(
        NextLine {
            from,
            end,
            passed,
            next,
        },
    ) = wordlist_lines::next_line(text, at)
    {
        let number = before + passed + 1;
        match add(&text[from..end], list, bytes) {
            Ok(grown) => {
                if bytes < grown {
                    count += 1;
                }
                bytes = grown;
            }
            Err(kind) => {
                let line = BadLine {
                    number,
                    from,
                    end,
                    count,
                };
                return Err(ListFault { kind, line });
            }
        }
        before = number;
        at = next;
    }
    Ok(Words { count, bytes })
}
