// The letter tree of a list that holds, in a row of states.
ghost use Rattle.std.specs.Prelude.{◌≡◌, List, ◌+◌, ◌≤◌, ◌<◌, length};
ghost use Rattle.std.proofs.lemmas.List.Edits.{sets};
ghost use Rattle.lexicon.specs.Words.{Word};
ghost use Rattle.lexicon.specs.Beginnings.{beginnings};
ghost use Rattle.lexicon.specs.Lexicon.{most_states, TakenAs};
ghost use Rattle.trie_states.specs.Tree.{ancestor, states_below, Tree};

use lexicon::{ListWords, MOST_STATES};

// A state: the one that it stands below, the letter that leads to it from there, and whether a word ends at it.
#[derive(Clone, Copy)]
pub struct State {
    pub parent: u8,
    pub letter: u8,
    pub is_end: bool,
}

// The root, and what stands in a row that no state has.
const ROOT: State = State {
    parent: 0,
    letter: 0,
    is_end: false,
};

// The state that stands so many parents above another.
fn ancestor(tree: &[State; MOST_STATES], state: usize, above: usize) -> usize
    requires { state < most_states }
    ensures { result ≡ ancestor tree.now state above }
{
    let mut at = state;
    for _ in 0..above {
        at = usize::from(tree[at].parent);
    }
    at
}

// A state for each of a word's last letters, the first below `parent` and each later one below the one before it. How many states there are then.
fn add(tree: &mut [State; MOST_STATES], states: usize, parent: usize, letters: &[u8]) -> usize
    requires { (parent < most_states) × (states + length letters.now ≤ most_states) }
    ensures { (result ≡ states + length letters.now)
        × (tree.new ≡ sets tree.old states (states_below parent states letters.now)) }
{
    let mut above = parent;
    for (k, letter) in letters.iter().enumerate() {
        let state = states + k;
        tree[state] = State {
            parent: above as u8,
            letter: *letter,
            is_end: false,
        };
        above = state;
    }
    states + letters.len()
}

// The states of all words. Before the first word stands the empty one, and the last state is the end of the word before.
pub fn grow(words: &[u8]) -> [State; MOST_STATES]
    requires { (ws : List Word) × TakenAs words.now ws }
    ensures { (ws : List Word) → TakenAs words.now ws → Tree ws (beginnings ws) result }
{
    let mut tree = [ROOT; MOST_STATES];
    let mut states = 1;
    let mut before: &[u8] = &[];
    for word in ListWords(words) {
        let shared = lexicon::common(before, word);
        let parent = ancestor(&tree, states - 1, before.len() - shared);
        states = add(&mut tree, states, parent, &word[shared..]);
        tree[states - 1].is_end = true;
        before = word;
    }
    tree
}
