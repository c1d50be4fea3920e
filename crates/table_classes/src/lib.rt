// The letter classes of a table: their rules, 34, on a line, on an arc and on the rows of a loaded table, and the rows taken out of its cells.
#![tactic(auto)]

ghost use Rattle.std.specs.Prelude.{◌≡◌, ℕ, ◌+◌, ◌≤◌, ◌<◌, length, get_or, take, drop};
ghost use Rattle.std.proofs.Math.Option.{some};
ghost use Rattle.table_format.specs.Classes.{class_count, row_width, letters_in};
ghost use Rattle.table_format.specs.Rules.{letters_rise, class_holds, arc_class_holds, is_blank, row_holds, classes_keep};
ghost use Rattle.table_format.specs.Loaded.{class_cells, rows_in, table_in, loaded};
ghost use Rattle.table_format.specs.Text.{class_lines};
ghost use Rattle.table_format.specs.Cells.{arc_said};

use table_format::{Arc, CLASS_COUNT, CLASSES_AT, FIRST_CLASS, ROW_WIDTH};

// Whether letters rise, from 1 to 63. The loop of row_holds also ends at a 0, and is over cells: the contract of one function for both would speak
// of each conversion that its type may make, and be longer than either loop.
fn letters_rise(letters: &[u8]) -> bool
    ensures { result ≡ letters_rise 0 letters.now }
{
    let mut last = 0;
    for letter in letters {
        if *letter <= last || 63 < *letter {
            return false;
        }
        last = *letter;
    }
    true
}

// 34, of a class line: the class is one of 0 to 7, none from it on is defined yet, and its letters rise. The rows are a part cut out of a table's
// cells, here and below, and so a slice with a clause on its length: an array's reference would have to be converted at each call.
pub fn class_holds(rows: &[u16], class: u8, letters: &[u8]) -> bool
    requires { length rows.now ≡ class_cells }
    ensures { result ≡ class_holds (rows_in class_count rows.now) class letters.now }
{
    let class = usize::from(class);
    class < CLASS_COUNT
        && (class..CLASS_COUNT).all(|c| rows[ROW_WIDTH * c] == 0)
        && letters_rise(letters)
}

// 34, of an arc: no class, or a defined one, the same on both sides.
pub fn arc_class_holds(rows: &[u16], arc: Arc) -> bool
    requires { length rows.now ≡ class_cells }
    ensures { result ≡ arc_class_holds (rows_in class_count rows.now) (arc_said arc) }
{
    if arc.upper < FIRST_CLASS {
        return arc.lower < FIRST_CLASS;
    }
    if arc.upper != arc.lower {
        return false;
    }
    let class = usize::from(arc.upper - FIRST_CLASS);
    class < CLASS_COUNT && rows[ROW_WIDTH * class] != 0
}

// Whether cells hold only 0. The loop goes through all of them, so that several are compared at once.
fn is_blank(cells: &[u16]) -> bool
    ensures { result ≡ is_blank cells.now }
{
    let mut blank = true;
    for x in cells {
        if *x != 0 {
            blank = false;
        }
    }
    blank
}

// How many letters a row begins with.
pub fn letters_in(row: &[u16]) -> usize
    ensures { result ≡ length (letters_in row.now) }
{
    row.iter().position(|x| *x == 0).unwrap_or(row.len())
}

// A row holds letters that rise, and is filled up with 0.
fn row_holds(row: &[u16]) -> bool
    requires { length row.now ≡ row_width }
    ensures { result ≡ row_holds row.now }
{
    let mut last = 0;
    for (k, x) in row.iter().enumerate() {
        if *x == 0 {
            return is_blank(&row[k..]);
        }
        if *x <= last || 63 < *x {
            return false;
        }
        last = *x;
    }
    true
}

// The rows of a loaded table. Most tables have no class, which is seen by one loop.
pub fn classes_hold(rows: &[u16]) -> bool
    requires { length rows.now ≡ class_cells }
    ensures { result ≡ classes_keep (rows_in class_count rows.now) }
{
    is_blank(rows)
        || (0..CLASS_COUNT).all(|c| row_holds(&rows[ROW_WIDTH * c..ROW_WIDTH * c + ROW_WIDTH]))
}

// How many classes are defined.
pub fn defined_count(rows: &[u16]) -> u16
    requires { length rows.now ≡ class_cells }
    ensures { result ≡ length (class_lines 0 (rows_in class_count rows.now)) }
{
    let mut count = 0;
    for c in 0..CLASS_COUNT {
        if rows[ROW_WIDTH * c] != 0 {
            count += 1;
        }
    }
    count
}

// A row of a loaded table.
fn row_at(table: &[u16], at: usize) -> [u8; 16]
    requires row_width_in_bounds { at + row_width ≤ length table.now }
    requires by_index { (i : ℕ) → i < row_width → get_or table.now (at + i) 0 < 256 }
    ensures { result ≡ take row_width (drop at table.now) }
{
    let mut row = [0u8; 16];
    for (k, cell) in table[at..at + ROW_WIDTH].iter().enumerate() {
        row[k] = *cell as u8;
    }
    row
}

// The classes of a loaded table, taken out of its cells: eight rows of sixteen letters, an array of arrays by value, beside the table.
pub fn rows(table: &[u16]) -> [[u8; 16]; 8]
    requires { loaded table.now ≡ some (table_in table.now) }
    ensures { result ≡ (table_in table.now).classes }
{
    let mut rows = [[0u8; 16]; 8];
    for (c, row) in rows.iter_mut().enumerate() {
        *row = row_at(table, CLASSES_AT + ROW_WIDTH * c);
    }
    rows
}
