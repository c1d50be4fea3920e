// A list of words to the loaded table of its letter tree. The cells are made first, so that a refused list leaves the destination as it was.
ghost use Rattle.std.specs.Prelude.{◌≡◌, List, ◌≤◌, length};
ghost use Rattle.std.proofs.lemmas.List.Edits.{sets};
ghost use Rattle.destination.specs.Told.{stored_told};
ghost use Rattle.table_format.specs.Loaded.{most_cells, cells_of};
ghost use Rattle.lexicon.specs.Words.{Word};
ghost use Rattle.lexicon.specs.Beginnings.{beginnings};
ghost use Rattle.lexicon.specs.Lexicon.{most_states, TakenAs};
ghost use Rattle.trie_format.specs.Trie.{trie_table};
ghost use Rattle.trie.specs.Cells.{terminals_begin, counts_before};
ghost use Rattle.trie.specs.Calls.{build_answer, build_cells};

use crate::cells::{put_arcs, put_terminals};
use destination::{put, store};
use refusal::Refusal;
use table_format::{ARC_WIDTH, CLASSES_AT, INITIALS_AT, MOST_CELLS};
use trie_states::children::link;
use trie_states::tree::grow;

// Where the terminal states begin, after one initial state.
const TERMINALS_AT: usize = INITIALS_AT + 1;

// The counts, and 0 in the cells of the classes and of the initial state, before the terminal states and the arcs.
fn put_counts(cells: &mut [u16], states: usize, arcs: usize, end: usize)
    requires { (states ≤ most_states) × (terminals_begin ≤ arcs) × (arcs ≤ end) × (end ≤ most_cells) × (length cells.old ≡ most_cells) }
    ensures { cells.new ≡ sets cells.old 0 (counts_before states arcs end) }
{
    let terminal_count = (arcs - TERMINALS_AT) as u16;
    let arc_count = ((end - arcs) / ARC_WIDTH) as u16;
    put(cells, 0, &[states as u16, 1, terminal_count, arc_count]);
    put(cells, CLASSES_AT, &[0; TERMINALS_AT - CLASSES_AT]);
}

// The cells of the table of a list that holds; how many there are.
fn fill(words: &[u8], states: usize, cells: &mut [u16]) -> usize
    requires taken_as { (ws : List Word) × TakenAs words.now ws × (states ≡ length (beginnings ws)) }
    requires cells_len { length cells.old ≡ most_cells }
    ensures { (ws : List Word) → TakenAs words.now ws
        → (result ≡ length (cells_of (trie_table ws))) × (cells.new ≡ sets cells.old 0 (cells_of (trie_table ws))) }
{
    let tree = grow(words);
    let links = link(&tree, states);
    let arcs = put_terminals(cells, TERMINALS_AT, &tree[..states]);
    let end = put_arcs(cells, arcs, states, &tree, &links);
    put_counts(cells, states, arcs, end);
    end
}

// The table of a list's letter tree, from the front of the destination: 30, 31, 32, then 24.
pub fn build(words: &[u8], table: &mut [u16]) -> Result<usize, Refusal>
    ensures { (stored_told result ≡ stored_told (build_answer words.now table.old))
        × (table.new ≡ build_cells words.now table.old) }
{
    let states = lexicon::check(words)?;
    let mut cells = [0u16; MOST_CELLS];
    let end = fill(words, states, &mut cells);
    store(&cells[..end], table)
}
