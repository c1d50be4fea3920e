// The table check: does a loaded table keep every rule, where do its parts stand, and where do each state's arcs begin?
#![tactic(auto)]

ghost use Rattle.std.specs.Prelude.{◌≡◌, true, ◌&&◌, List, ℕ, ◌≤◌, length, get_or};
ghost use Rattle.table_format.specs.Classes.{class_count};
ghost use Rattle.table_format.specs.Rules.{initials_keep, arcs_keep, penalties_keep, keeps_rules};
ghost use Rattle.table_format.specs.Loaded.{class_cells, rows_in, counts_in, table_in};
ghost use Rattle.table_format.specs.Cells.{arc_count, arcs_as};
ghost use Rattle.table_format.specs.Index.{first_index};
ghost use Rattle.table_check.specs.Check.{layout_of, LaidOut, initials_part, terminals_part, arcs_part, checked};

use table_format::{ARC_WIDTH, CLASSES_AT, INITIALS_AT, arc_at};

// A loaded table's count of states, where its initial states, its terminal states and its arcs begin, and where it ends.
#[derive(Clone, Copy)]
pub struct Layout {
    pub states: u16,
    pub initials: usize,
    pub terminals: usize,
    pub arcs: usize,
    pub end: usize,
}

impl Layout {
    // The initial states of a table that the cells hold whole.
    pub fn initials(self, cells: &[u16]) -> &[u16]
        requires { LaidOut cells.now self }
        ensures part { result.now ≡ initials_part cells.now self }
        ensures table { result.now ≡ (table_in cells.now).initials }
    {
        &cells[self.initials..self.terminals]
    }

    // Its terminal states.
    pub fn terminals(self, cells: &[u16]) -> &[u16]
        requires { LaidOut cells.now self }
        ensures part { result.now ≡ terminals_part cells.now self }
        ensures table { result.now ≡ (table_in cells.now).terminals }
    {
        &cells[self.terminals..self.arcs]
    }

    // The cells of its arcs.
    pub fn arcs(self, cells: &[u16]) -> &[u16]
        requires { LaidOut cells.now self }
        ensures part { result.now ≡ arcs_part cells.now self }
        ensures table { arcs_as result.now ≡ (table_in cells.now).arcs }
    {
        &cells[self.arcs..self.end]
    }
}

// What the table check tells: where a table's parts stand, and where each state's arcs begin.
#[derive(Clone, Copy)]
pub struct Checked {
    pub layout: Layout,
    pub first: [u16; 257],
}

fn initials_hold(list: &[u16], states: u16) -> bool
    ensures { result ≡ initials_keep states list.now }
{
    let mut top: u64 = 0;
    for (k, s) in list.iter().enumerate() {
        if table_rules::initial_fault(&list[..k], states, *s, top).is_err() {
            return false;
        }
        top = top.max(table_rules::state_key(*s));
    }
    true
}

// Each arc judged with those before it.
fn each_arc_holds(rows: &[u16], cells: &[u16], states: u16) -> bool
    requires { length rows.now ≡ class_cells }
    ensures { result ≡ arcs_keep states (rows_in class_count rows.now) (arcs_as cells.now) }
{
    let mut top: u64 = 0;
    for n in 0..cells.len() / ARC_WIDTH {
        let arc = arc_at(cells, n);
        if table_rules::arc_fault(rows, &cells[..ARC_WIDTH * n], states, arc, top).is_err() {
            return false;
        }
        top = top.max(table_rules::arc_key(arc));
    }
    true
}

// Arcs in order are held by one look at each, others each with those before it. The rows, the cells and the count of states go through three
// functions, each of which reads all three by themselves: a struct would only be taken apart there.
fn arcs_hold(rows: &[u16], cells: &[u16], states: u16) -> bool
    requires { length rows.now ≡ class_cells }
    ensures { result ≡ (arcs_keep states (rows_in class_count rows.now) (arcs_as cells.now) && penalties_keep (arcs_as cells.now)) }
{
    table_order::arcs_rise(rows, cells, states)
        || each_arc_holds(rows, cells, states) && table_order::penalties_hold(cells)
}

// The first-arc index of arcs that keep the rules: the arcs of each source are counted, then the counts are added up, by index, since each is
// added to the next one.
fn first_arcs(cells: &[u16], states: u16) -> [u16; 257]
    requires cells_bound { (arc_count cells.now ≤ 1024) × (states ≤ 256) }
    requires by_index { (rows : List (List ℕ)) × (arcs_keep states rows (arcs_as cells.now) ≡ true) }
    ensures { result ≡ first_index states (arcs_as cells.now) }
{
    let mut first = [0u16; 257];
    for n in (0..cells.len() / ARC_WIDTH).rev() {
        let arc = arc_at(cells, n);
        first[usize::from(arc.source) + 1] += 1;
    }
    for q in 0..usize::from(states) {
        first[q + 1] += first[q];
    }
    first
}

// A cell, 0 past the end.
fn cell(cells: &[u16], at: usize) -> u16
    ensures { result ≡ get_or cells.now at 0 }
{
    cells.get(at).copied().unwrap_or(0)
}

// Where the parts of a loaded table begin, by its counts.
pub fn layout_of(cells: &[u16]) -> Layout
    ensures { result ≡ layout_of (counts_in cells.now) }
{
    let initials = INITIALS_AT;
    let terminals = initials + usize::from(cell(cells, 1));
    let arcs = terminals + usize::from(cell(cells, 2));
    Layout {
        states: cell(cells, 0),
        initials,
        terminals,
        arcs,
        end: arcs + ARC_WIDTH * usize::from(cell(cells, 3)),
    }
}

// Rules 3 to 8, 34 and the limit of penalties on a table that the cells hold whole.
fn keeps_rules(cells: &[u16], at: Layout) -> bool
    requires { LaidOut cells.now at }
    ensures { result ≡ keeps_rules (table_in cells.now) }
{
    let rows = &cells[CLASSES_AT..INITIALS_AT];
    table_rules::counts_hold(at.states, cells[1], cells[2], cells[3])
        && table_classes::classes_hold(rows)
        && initials_hold(at.initials(cells), at.states)
        && table_order::terminals_hold(at.terminals(cells), at.states)
        && arcs_hold(rows, at.arcs(cells), at.states)
}

// The table check: Ok where the table keeps the rules. Of one that breaks a rule it tells the layout by the counts too, and an index of zeros.
pub fn check(cells: &[u16]) -> Result<Checked, Checked>
    ensures { result ≡ checked cells.now }
{
    let layout = layout_of(cells);
    if layout.end <= cells.len() && keeps_rules(cells, layout) {
        let first = first_arcs(layout.arcs(cells), layout.states);
        Ok(Checked { layout, first })
    } else {
        Err(Checked {
            layout,
            first: [0; 257],
        })
    }
}
