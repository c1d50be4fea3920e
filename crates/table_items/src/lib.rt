// One line of a text after the header's: its kind, what it earns, its item put where it belongs in the cells, and the item's key.
#![tactic(auto)]

ghost use Rattle.std.specs.Prelude.{◌≡◌, List, ℕ, ◌≤◌, ◌<◌, ◌+◌, length, get_or, drop};
ghost use Rattle.std.proofs.lemmas.List.Edits.{sets};
ghost use Rattle.table_format.specs.Table.{Table, Counts};
ghost use Rattle.table_format.specs.Classes.{class_count};
ghost use Rattle.table_format.specs.Rules.{class_faults, arc_faults};
ghost use Rattle.table_format.specs.Loaded.{initials_at, arc_width, counts_in, classes_in};
ghost use Rattle.table_format.specs.Text.{line_bytes};
ghost use Rattle.table_format.specs.Parse.{class, arc, has_form, in_place, is_of, due, arc_from, class_from, letters_from, kind_faults};
ghost use Rattle.table_rules.specs.Judge.{judged};
ghost use Rattle.table_scanner.specs.Scan.{padded};
ghost use Rattle.table_items.specs.Draft.{kind_said, kind_after, one_number, IsItem, Tracks, Drafted, arcs_held, ArcsReady, row_at, place_of, filled_after, item_cells, item_key};

use refusal::InputCause;
use table_format::{
    ARC_BYTES, ARC_KIND, ARC_WIDTH, CLASS_BYTES, CLASS_KIND, CLASSES_AT, END_KIND, INITIAL_KIND,
    INITIALS_AT, LINE_BYTES, PENALTY_BYTES, PENALTY_KIND, ROW_WIDTH, STATE_BYTES, TERMINAL_KIND,
};
use table_scanner::{arc_in, number_at};

// The kinds of the lines after the header's.
#[derive(Clone, Copy, Debug, PartialEq, Eq)]
pub enum LineKind {
    Class,
    Initial,
    Terminal,
    Arc,
    End,
}

// What a line says: its bytes, from the front of an array that is filled up with 0, as far as it has room, and how many they are.
#[derive(Clone, Copy)]
pub struct ItemLine {
    pub bytes: [u8; LINE_BYTES],
    pub count: usize,
}

// How far a table has been read: its lines so far, its cells so far, and a number that no key of its items is above.
#[derive(Clone, Copy)]
pub struct Draft {
    pub lines: usize,
    pub filled: usize,
    pub top: u64,
}

impl ItemLine {
    // Whether the line has a form: a first byte, and how many bytes.
    fn has_form(self, kind: u8, count: usize) -> bool
        ensures { (b : List ℕ) → self.bytes ≡ padded b → self.count ≡ length b → result ≡ has_form kind count b }
    {
        self.bytes[0] == kind && self.count == count
    }

    // The number of a line of a kind and one number: an initial state's, a terminal state's, the end's.
    fn number(self, kind: u8) -> Result<u16, InputCause>
        ensures { (b : List ℕ) → self.bytes ≡ padded b → self.count ≡ length b → result ≡ one_number kind b }
    {
        if !self.has_form(kind, STATE_BYTES) {
            return Err(InputCause::Misplaced);
        }
        Ok(number_at(self.bytes, 1))
    }

    // What a class line earns, after the classes before it.
    fn class_fault(self, cells: &[u16]) -> Result<(), InputCause>
        requires { initials_at ≤ length cells.now }
        ensures { (b : List ℕ) → self.bytes ≡ padded b → self.count ≡ length b
            → result ≡ judged (in_place (is_of class b) (class_faults (classes_in cells.now) (class_from b) (letters_from b))) }
    {
        if self.bytes[0] != CLASS_KIND || self.count < CLASS_BYTES || LINE_BYTES < self.count {
            return Err(InputCause::Misplaced);
        }
        let rows = &cells[CLASSES_AT..INITIALS_AT];
        if !table_classes::class_holds(rows, self.bytes[1], &self.bytes[2..self.count]) {
            return Err(InputCause::ClassFault);
        }
        Ok(())
    }

    // Whether a line is an arc's, by its first byte and its length: of a kind of its own where it has a penalty, which is then not 0.
    fn is_arc(self) -> bool
        ensures { (b : List ℕ) → self.bytes ≡ padded b → self.count ≡ length b → result ≡ is_of arc b }
    {
        self.has_form(ARC_KIND, ARC_BYTES)
            || self.has_form(PENALTY_KIND, PENALTY_BYTES) && self.bytes[7] != 0
    }

    // The key of the line's item, 0 where it has none.
    pub fn key(self, kind: LineKind) -> u64
        ensures { (b : List ℕ) → IsItem (kind_said kind) → self.bytes ≡ padded b → item_key (kind_said kind) b ≤ result }
    {
        match kind {
            LineKind::Initial => table_rules::state_key(number_at(self.bytes, 1)),
            LineKind::Arc => table_rules::arc_key(arc_in(self.bytes)),
            _ => 0,
        }
    }
}

// The row of a class line's letters, at its place.
fn put_class(cells: &mut [u16], bytes: [u8; LINE_BYTES])
    requires { (get_or bytes 1 0 < class_count) × (initials_at ≤ length cells.old) }
    ensures { cells.new ≡ sets cells.old (row_at bytes) (drop 2 bytes) }
{
    let at = CLASSES_AT + ROW_WIDTH * usize::from(bytes[1]);
    for k in 0..ROW_WIDTH {
        cells[at + k] = u16::from(bytes[k + 2]);
    }
}

impl Draft {
    #[tactic(auto, unfolding(crate::specs::Draft::kind_after))]
    // The kind of the next line, from the counts, the cells so far and the line's first byte.
    pub fn kind_due(self, cells: &[u16], first: u8) -> LineKind
        requires { initials_at ≤ length cells.now }
        ensures { kind_said result ≡ kind_after (counts_in cells.now) self.filled first }
    {
        if self.filled == INITIALS_AT && first == CLASS_KIND {
            return LineKind::Class;
        }
        let terminals = INITIALS_AT + usize::from(cells[1]);
        let arcs = terminals + usize::from(cells[2]);
        let end = arcs + ARC_WIDTH * usize::from(cells[3]);
        if self.filled < terminals {
            LineKind::Initial
        } else if self.filled < arcs {
            LineKind::Terminal
        } else if self.filled < end {
            LineKind::Arc
        } else {
            LineKind::End
        }
    }

    // What an arc line earns, after the arcs before it.
    fn arc_fault(self, cells: &[u16], line: ItemLine) -> Result<(), InputCause>
        requires { ArcsReady cells.now self.filled self.top }
        ensures { (b : List ℕ) → line.bytes ≡ padded b → line.count ≡ length b
            → result ≡ judged (in_place (is_of arc b) (arc_faults (get_or cells.now 0 0) (classes_in cells.now) (arcs_held cells.now self.filled) (arc_from b))) }
    {
        if !line.is_arc() {
            return Err(InputCause::Misplaced);
        }
        let from = INITIALS_AT + usize::from(cells[1]) + usize::from(cells[2]);
        let rows = &cells[CLASSES_AT..INITIALS_AT];
        let before = &cells[from..self.filled];
        table_rules::arc_fault(rows, before, cells[0], arc_in(line.bytes), self.top)
    }

    // What a line earns, of the kind that is due.
    pub fn item_fault(self, cells: &[u16], kind: LineKind, line: ItemLine) -> Result<(), InputCause>
        requires { Drafted self.lines self.filled self.top cells.now (kind_said kind) }
        ensures { (c : Counts) (t : Table) (b : List ℕ) → Tracks c t self.lines self.filled self.top cells.now → kind_said kind ≡ due c t b
            → line.bytes ≡ padded b → line.count ≡ length b → result ≡ judged (kind_faults (due c t b) t b) }
    {
        match kind {
            LineKind::Class => line.class_fault(cells),
            LineKind::Initial => {
                let state = line.number(INITIAL_KIND)?;
                let before = &cells[INITIALS_AT..self.filled];
                table_rules::initial_fault(before, cells[0], state, self.top)
            }
            LineKind::Terminal => {
                let state = line.number(TERMINAL_KIND)?;
                let from = INITIALS_AT + usize::from(cells[1]);
                table_rules::terminal_fault(&cells[from..self.filled], cells[0], state)
            }
            LineKind::Arc => self.arc_fault(cells, line),
            LineKind::End => {
                let lines = line.number(END_KIND)?;
                if usize::from(lines) != self.lines {
                    return Err(InputCause::LineCount);
                }
                Ok(())
            }
        }
    }

    // The line's item: a class at its place, others behind the cells so far; how many there are then.
    pub fn append(self, cells: &mut [u16], kind: LineKind, line: ItemLine) -> usize
        requires arc_width_in_bounds { (self.filled + arc_width ≤ length cells.old) × (initials_at ≤ length cells.old) }
        requires bytes_bound { kind_said kind ≡ class → get_or line.bytes 1 0 < class_count }
        ensures { (b : List ℕ) → IsItem (kind_said kind) → line.bytes ≡ padded b → length b ≤ line_bytes
            → (result ≡ filled_after (kind_said kind) b self.filled)
            × (cells.new ≡ sets cells.old (place_of (kind_said kind) b self.filled) (item_cells (kind_said kind) b)) }
    {
        match kind {
            LineKind::Class => {
                put_class(cells, line.bytes);
                self.filled
            }
            LineKind::Arc => {
                let end = self.filled + ARC_WIDTH;
                cells[self.filled..end].copy_from_slice(&arc_in(line.bytes).cells());
                end
            }
            _ => {
                cells[self.filled] = number_at(line.bytes, 1);
                self.filled + 1
            }
        }
    }
}
