// The cases that call the crate `table`, on the cells of one table.
#![tactic(auto)]

use cases_script::numbers::Numbers;
use cases_script::{Case, show};
use refusal::Refusal;
use table::{reader, writer};

// What a destination is filled with: no table has such a cell, and no text such a byte.
pub const CELL_MARK: u16 = 65535;

const BYTE_MARK: u8 = b'.';

// Bytes that hold every text, and some more.
const TEXT_BYTES: usize = 21400;

// How many cells or bytes were written, or the refusal's number.
fn tell(rt: &impl Print, answer: Result<usize, Refusal>, unit: &str) {
    match answer {
        Ok(n) => {
            let _ = print!(rt; " {n} {unit}");
        }
        Err(refusal) => show::refused(rt, refusal),
    }
}

// Fills the cells with numbers, and with the mark after their end and for those that no cell holds.
fn fill(cells: &mut [u16], list: Numbers) {
    for (cell, number) in cells.iter_mut().zip(list.0) {
        *cell = u16::try_from(*number).unwrap_or(CELL_MARK);
    }
    if let Some(rest) = cells.get_mut(list.0.len()..) {
        rest.fill(CELL_MARK);
    }
}

// Whether a loaded table's text is this one.
fn has_text(cells: &[u16], text: &[u8]) -> bool {
    let mut again = [BYTE_MARK; TEXT_BYTES];
    let count = writer::write(cells, &mut again).unwrap_or(0);
    again.get(..count).is_some_and(|own| own == text)
}

// A text, read into cells that are filled with the mark.
fn read_into(rt: &impl Print, text: &[u8], cells: &mut [u16]) {
    let answer = reader::read(text, cells);
    tell(rt, answer, "cells");
    let count = answer.unwrap_or(0);
    if count > 0 {
        let same = if has_text(cells, text) {
            "same"
        } else {
            "other"
        };
        let _ = print!(rt; ", {same} text");
    }
    show::touched(rt, show::is_marked(cells, count, &CELL_MARK));
}

// `<` CELLS | TEXT: reads the text into so many cells.
pub fn read(rt: &impl Print, case: Case, cells: &mut [u16]) {
    fill(cells, case.list.after(1));
    if let Some(bar) = case.line.iter().position(|c| *c == b'|') {
        let size = case.list.amount(0, cells.len());
        read_into(rt, &case.line[bar + 1..], &mut cells[..size]);
    }
}

// `"`: the table's own text is read, and its last line told.
pub fn again(rt: &impl Print, case: Case, cells: &mut [u16]) {
    let mut text = [BYTE_MARK; TEXT_BYTES];
    let size = writer::write(cells, &mut text).unwrap_or(0);
    fill(cells, case.list);
    if (7..=TEXT_BYTES).contains(&size) {
        read_into(rt, &text[..size], cells);
        let _ = print!(rt; ", ");
        show::say(rt, &text[size - 7..size - 1]);
    }
}

fn write_into(rt: &impl Print, cells: &[u16], text: &mut [u8]) {
    let told = if table_check::check(cells).is_ok() {
        "passes"
    } else {
        "fails"
    };
    let _ = print!(rt; " check {told}, write");
    let answer = writer::write(cells, text);
    tell(rt, answer, "bytes");
    show::touched(rt, show::is_marked(text, answer.unwrap_or(0), &BYTE_MARK));
}

// `>` CELLS BYTES, TABLE: checks the first cells of a table, and writes them into so many bytes.
pub fn load(rt: &impl Print, case: Case, cells: &mut [u16]) {
    fill(cells, case.list.after(2));
    let size = case.list.amount(0, cells.len());
    let room = case.list.amount(1, TEXT_BYTES);
    let mut text = [BYTE_MARK; TEXT_BYTES];
    write_into(rt, &cells[..size], &mut text[..room]);
}

// `@` CELLS FROM TO: the index of first arcs that the check of so many cells tells, from one state to another; where it fails, zeros.
pub fn index(rt: &impl Print, case: Case, cells: &[u16]) {
    let size = case.list.amount(0, cells.len());
    let (Ok(checked) | Err(checked)) = table_check::check(&cells[..size]);
    let first = checked.first;
    let from = case.list.amount(1, first.len());
    show::cells(rt, &first, from, case.list.amount(2, first.len()));
}

// `=` COUNT: the first cells.
pub fn first(rt: &impl Print, case: Case, cells: &[u16]) {
    show::cells(rt, cells, 0, case.list.amount(0, cells.len()));
}
