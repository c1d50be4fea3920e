// The children of each state, as lists: its first child, and from each child the next one.
ghost use Rattle.std.specs.Prelude.{◌≤◌, ◌<◌};
ghost use Rattle.lexicon.specs.Lexicon.{most_states};
ghost use Rattle.trie_states.specs.Tree.{Linked};

use crate::tree::State;
use lexicon::MOST_STATES;

// A state's first child, and the next child of the state that it stands below.
#[derive(Clone, Copy)]
pub struct Links {
    pub first: Option<u8>,
    pub next: Option<u8>,
}

// A state with no child, and none after it.
const ALONE: Links = Links {
    first: None,
    next: None,
};

// From the last state down, each is put in front of the children of its parent.
pub fn link(tree: &[State; MOST_STATES], states: usize) -> [Links; MOST_STATES]
    requires { (0 < states) × (states ≤ most_states) }
    ensures { Linked tree.now states result }
{
    let mut links = [ALONE; MOST_STATES];
    for state in (1..states).rev() {
        let parent = usize::from(tree[state].parent);
        links[state].next = links[parent].first;
        links[parent].first = Some(state as u8);
    }
    links
}
