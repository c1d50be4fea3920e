// Bytes written as lines of text: the line of any bytes, each kind of line of a table, and the lines of a list.
#![tactic(auto)]

ghost use Rattle.std.specs.Prelude.{◌≡◌, ◌∷◌, map, ℕ, ◌+◌, ◌*◌, ◌/◌, ◌%◌, ◌≤◌, ◌<◌, length, get_or};
ghost use Rattle.std.proofs.lemmas.List.Edits.{sets};
ghost use Rattle.table_format.specs.Classes.{class_count, row_width};
ghost use Rattle.table_format.specs.Loaded.{initials_at, class_cells, rows_in, counts_in};
ghost use Rattle.table_format.specs.Line.{chars_of, line_text, characters_of};
ghost use Rattle.table_format.specs.Text.{number, header_bytes, class_bytes, class_lines, arc_bytes, join_lines};
ghost use Rattle.table_format.specs.Parse.{header_line, state_line};
ghost use Rattle.table_format.specs.Cells.{arc_count, arc_said, arcs_as};

use table_format::{
    ARC_BYTES, ARC_KIND, ARC_LINE, ARC_WIDTH, Arc, CLASS_COUNT, CLASS_KIND, HEADER_KIND,
    LINE_BYTES, PENALTY_KIND, PENALTY_LINE, ROW_WIDTH, STATE_LINE, arc_at,
};

// The text and a place in it stay two parameters here: over a struct that holds the lent text, each clause would also say that it holds the same one.

// The two digits of each byte, from a place of the text on.
pub fn put_bytes(text: &mut [u8], at: usize, bytes: &[u8])
    requires { at + 2 * length bytes.now ≤ length text.old }
    ensures { text.new ≡ sets text.old at (chars_of bytes.now) }
{
    for (k, byte) in bytes.iter().enumerate() {
        let [high, low] = hexadecimal::encode(*byte);
        let to = at + 2 * k;
        text[to] = high;
        text[to + 1] = low;
    }
}

// The line of some bytes, from a place of the text on, and the place after it.
pub fn put_line(text: &mut [u8], at: usize, bytes: &[u8]) -> usize
    requires { at + characters_of (length bytes.now) ≤ length text.old }
    ensures { (result ≡ at + characters_of (length bytes.now)) × (text.new ≡ sets text.old at (line_text bytes.now)) }
{
    let end = at + 2 * bytes.len();
    put_bytes(text, at, bytes);
    text[end] = b'\n';
    end + 1
}

// The header line, which opens the text.
pub fn header_line(text: &mut [u8], cells: &[u16])
    requires { (header_line ≤ length text.old) × (initials_at ≤ length cells.now) }
    ensures { text.new ≡ sets text.old 0 (line_text (header_bytes (counts_in cells.now))) }
{
    let [states_high, states_low] = cells[0].to_be_bytes();
    let [initials_high, initials_low] = cells[1].to_be_bytes();
    let [terminals_high, terminals_low] = cells[2].to_be_bytes();
    let [arcs_high, arcs_low] = cells[3].to_be_bytes();
    put_line(
        text,
        0,
        &[
            HEADER_KIND,
            states_high,
            states_low,
            initials_high,
            initials_low,
            terminals_high,
            terminals_low,
            arcs_high,
            arcs_low,
        ],
    );
}

// A line of a kind and one number: an initial state, a terminal state, the end.
pub fn number_line(text: &mut [u8], at: usize, kind: u8, n: u16)
    requires { at + state_line ≤ length text.old }
    ensures { text.new ≡ sets text.old at (line_text (kind ∷ number n)) }
{
    let [high, low] = n.to_be_bytes();
    put_line(text, at, &[kind, high, low]);
}

// An arc's line, and the place after it. Its penalty is the last byte, where it has one.
fn arc_line(text: &mut [u8], at: usize, arc: Arc) -> usize
    requires arc_in_bounds { at + length (line_text (arc_bytes (arc_said arc))) ≤ length text.old }
    requires upper_bound { (arc.upper < 256) × (arc.lower < 256) × (arc.penalty < 256) }
    ensures { (result ≡ at + length (line_text (arc_bytes (arc_said arc)))) × (text.new ≡ sets text.old at (line_text (arc_bytes (arc_said arc)))) }
{
    let [source_high, source_low] = arc.source.to_be_bytes();
    let [target_high, target_low] = arc.target.to_be_bytes();
    let mut bytes = [
        ARC_KIND,
        source_high,
        source_low,
        arc.upper as u8,
        arc.lower as u8,
        target_high,
        target_low,
        arc.penalty as u8,
    ];
    if arc.penalty == 0 {
        return put_line(text, at, &bytes[..ARC_BYTES]);
    }
    bytes[0] = PENALTY_KIND;
    put_line(text, at, &bytes)
}

// A class's line, and the place after it.
fn class_line(text: &mut [u8], at: usize, class: u8, row: &[u16]) -> usize
    requires row_len { (length row.now ≡ row_width) × ((i : ℕ) → get_or row.now i 0 < 256) }
    requires row_in_bounds { at + length (line_text (class_bytes class row.now)) ≤ length text.old }
    ensures { (result ≡ at + length (line_text (class_bytes class row.now))) × (text.new ≡ sets text.old at (line_text (class_bytes class row.now))) }
{
    let mut bytes = [0u8; LINE_BYTES];
    bytes[0] = CLASS_KIND;
    bytes[1] = class;
    let count = table_classes::letters_in(row);
    for (k, letter) in row[..count].iter().enumerate() {
        bytes[k + 2] = *letter as u8;
    }
    put_line(text, at, &bytes[..count + 2])
}

// The lines of the defined classes, and the place after them.
pub fn class_lines(text: &mut [u8], at: usize, rows: &[u16]) -> usize
    requires rows_len { (length rows.now ≡ class_cells) × ((i : ℕ) → get_or rows.now i 0 < 256) }
    requires rows_in_bounds { at + length (join_lines (class_lines 0 (rows_in class_count rows.now))) ≤ length text.old }
    ensures { (result ≡ at + length (join_lines (class_lines 0 (rows_in class_count rows.now)))) × (text.new ≡ sets text.old at (join_lines (class_lines 0 (rows_in class_count rows.now)))) }
{
    let mut to = at;
    for c in 0..CLASS_COUNT {
        let from = ROW_WIDTH * c;
        if rows[from] != 0 {
            to = class_line(text, to, c as u8, &rows[from..from + ROW_WIDTH]);
        }
    }
    to
}

// How many characters the lines of the defined classes have.
pub fn class_size(rows: &[u16]) -> usize
    requires { length rows.now ≡ class_cells }
    ensures { result ≡ length (join_lines (class_lines 0 (rows_in class_count rows.now))) }
{
    let mut size = 0;
    for c in 0..CLASS_COUNT {
        let at = ROW_WIDTH * c;
        if rows[at] != 0 {
            size += 2 * (2 + table_classes::letters_in(&rows[at..at + ROW_WIDTH])) + 1;
        }
    }
    size
}

// The lines of a list of states, and the place after them.
pub fn state_lines(text: &mut [u8], at: usize, kind: u8, list: &[u16]) -> usize
    requires { at + state_line * length list.now ≤ length text.old }
    ensures { (result ≡ at + state_line * length list.now) × (text.new ≡ sets text.old at (join_lines (map (λ s. kind ∷ number s) list.now))) }
{
    let mut to = at;
    for state in list {
        number_line(text, to, kind, *state);
        to += STATE_LINE;
    }
    to
}

// The lines of arcs, and the place after them.
pub fn arc_lines(text: &mut [u8], at: usize, arcs: &[u16]) -> usize
    requires arcs_in_bounds { at + length (join_lines (map arc_bytes (arcs_as arcs.now))) ≤ length text.old }
    requires by_index { (i : ℕ) → get_or arcs.now i 0 < 256 }
    ensures { (result ≡ at + length (join_lines (map arc_bytes (arcs_as arcs.now)))) × (text.new ≡ sets text.old at (join_lines (map arc_bytes (arcs_as arcs.now)))) }
{
    let mut to = at;
    for n in 0..arcs.len() / ARC_WIDTH {
        to = arc_line(text, to, arc_at(arcs, n));
    }
    to
}

// How many characters the lines of arcs have.
pub fn arc_size(arcs: &[u16]) -> usize
    requires { arc_count arcs.now ≤ 1024 }
    ensures { result ≡ length (join_lines (map arc_bytes (arcs_as arcs.now))) }
{
    let mut size = 0;
    for n in 0..arcs.len() / ARC_WIDTH {
        let arc = arc_at(arcs, n);
        if arc.penalty == 0 {
            size += ARC_LINE;
        } else {
            size += PENALTY_LINE;
        }
    }
    size
}
