// The cells of the letter tree's table: terminal states and arcs.
ghost use Rattle.std.specs.Prelude.{◌≡◌, List, map, ℕ, ◌+◌, ◌*◌, ◌≤◌, ◌<◌, length};
ghost use Rattle.std.proofs.lemmas.List.Edits.{sets};
ghost use Rattle.table_format.specs.Loaded.{arc_width, arc_cells, arcs_cells};
ghost use Rattle.table_format.specs.Cells.{arc_said};
ghost use Rattle.lexicon.specs.Lexicon.{most_states};
ghost use Rattle.trie_states.specs.Tree.{letter_of, ends_at, first_of, next_of, Chain, over_states, child_arc};
ghost use Rattle.trie.specs.Cells.{Chains, cut_arcs, marked, state_arcs};

use lexicon::MOST_STATES;
use table_format::{ARC_WIDTH, Arc};
use trie_states::children::Links;
use trie_states::tree::State;

// The letter that marks a cut.
const CUT: u16 = 63;

// The numbers of the states at which words end, and the place after them.
pub fn put_terminals(cells: &mut [u16], at: usize, tree: &[State]) -> usize
    requires { (length tree.now ≤ most_states) × (at + length (marked tree.now 0 (length tree.now)) ≤ length cells.old) }
    ensures { (result ≡ at + length (marked tree.now 0 (length tree.now)))
        × (cells.new ≡ sets cells.old at (marked tree.now 0 (length tree.now))) }
{
    let mut to = at;
    for (state, row) in tree.iter().enumerate() {
        if row.is_end {
            cells[to] = state as u16;
            to += 1;
        }
    }
    to
}

// An arc's cells. Each is stored by itself: as an array of five they would be read back before they are all written, which takes longer.
fn put_arc(cells: &mut [u16], at: usize, arc: Arc)
    requires { at + arc_width ≤ length cells.old }
    ensures { cells.new ≡ sets cells.old at (arc_cells (arc_said arc)) }
{
    cells[at] = arc.source;
    cells[at + 1] = arc.upper;
    cells[at + 2] = arc.lower;
    cells[at + 3] = arc.target;
    cells[at + 4] = arc.penalty;
}

// The arcs from a state to its children, by their letters, and the place after them.
fn put_children(
    cells: &mut [u16],
    at: usize,
    state: usize,
    tree: &[State; MOST_STATES],
    links: &[Links; MOST_STATES],
) -> usize
    requires state_low { state < most_states }
    requires room { (l : List ℕ) × Chain (next_of links.now) (first_of links.now state) l × (at + arc_width * length l ≤ length cells.old) }
    ensures { (l : List ℕ) → Chain (next_of links.now) (first_of links.now state) l
        → (result ≡ at + arc_width * length l)
        × (cells.new ≡ sets cells.old at (arcs_cells (map (child_arc (letter_of tree.now) state) l))) }
{
    let mut to = at;
    let mut next = links[state].first;
    while let Some(child) = next {
        let k = usize::from(child);
        let letter = u16::from(tree[k].letter);
        let arc = Arc {
            source: state as u16,
            upper: letter,
            lower: letter,
            target: u16::from(child),
            penalty: 0,
        };
        put_arc(cells, to, arc);
        to += ARC_WIDTH;
        next = links[k].next;
    }
    to
}

// At a word's end the arc back to the root; the place after it.
fn put_cut(cells: &mut [u16], at: usize, state: usize, is_end: bool) -> usize
    requires { (state < most_states) × (at + arc_width * length (cut_arcs state is_end) ≤ length cells.old) }
    ensures { (result ≡ at + arc_width * length (cut_arcs state is_end))
        × (cells.new ≡ sets cells.old at (arcs_cells (cut_arcs state is_end))) }
{
    if !is_end {
        return at;
    }
    let arc = Arc {
        source: state as u16,
        upper: 0,
        lower: CUT,
        target: 0,
        penalty: 0,
    };
    put_arc(cells, at, arc);
    at + ARC_WIDTH
}

// The arcs of all states, each state's to its children and then, at a word's end, back to the root; the place after them.
pub fn put_arcs(
    cells: &mut [u16],
    at: usize,
    states: usize,
    tree: &[State; MOST_STATES],
    links: &[Links; MOST_STATES],
) -> usize
    requires states_few { states ≤ most_states }
    requires room { (below : ℕ → List ℕ) × Chains links.now states below
        × (at + arc_width * length (over_states (state_arcs tree.now below) 0 states) ≤ length cells.old) }
    ensures { (below : ℕ → List ℕ) → Chains links.now states below
        → (result ≡ at + arc_width * length (over_states (state_arcs tree.now below) 0 states))
        × (cells.new ≡ sets cells.old at (arcs_cells (over_states (state_arcs tree.now below) 0 states))) }
{
    let mut to = at;
    for state in 0..states {
        to = put_children(cells, to, state, tree, links);
        to = put_cut(cells, to, state, tree[state].is_end);
    }
    to
}
