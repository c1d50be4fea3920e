// Runs the cases of a script, its standard input, and prints a line for each. The file `stdin` beside this folder is the script, and
// says how a case is written.
#![tactic(auto)]

mod answers;
mod searches;

use cases_script::numbers::Numbers;
use cases_script::{Case, numbers, show};
use std::io;

// Cells that hold every table, and some more; numbers of a case.
const TABLE_CELLS: usize = 5824;

// What a case does by its sign, on the cells of the table.
fn act(rt: &impl Print, case: Case, cells: &mut [u16]) {
    match case.sign {
        b'<' => cases_tables::read(rt, case, cells),
        b'>' => cases_tables::load(rt, case, cells),
        b'"' => cases_tables::again(rt, case, cells),
        b'@' => cases_tables::index(rt, case, cells),
        b'=' => cases_tables::first(rt, case, cells),
        _ => searches::query(rt, case, cells),
    }
}

fn case_of<'a>(sign: u8, line: &'a [u8], numbers: &'a [u32]) -> Case<'a> {
    let list = Numbers(numbers);
    Case { sign, line, list }
}

// The case of a line: its sign, its name up to the colon, and its numbers. A line without a colon is no case.
fn perform(rt: &impl Print, line: &[u8], cells: &mut [u16]) {
    if let Some(colon) = line.iter().position(|c| *c == b':') {
        show::say(rt, &line[1..colon + 1]);
        let mut list = [numbers::NONE; TABLE_CELLS];
        numbers::read(&line[colon..], 0, &mut list);
        act(rt, case_of(line[0], &line[colon..], &list), cells);
        show::say(rt, b"\n");
    }
}

// Each line of a script, with the cells of one table.
fn each(rt: &impl Print, script: &[u8], cells: &mut [u16]) {
    for line in script.split(|c| *c == numbers::END) {
        perform(rt, line, cells);
    }
}

fn run(rt: &impl Print, script: &mut [u8]) {
    numbers::make_plain(script);
    let mut cells = [cases_tables::CELL_MARK; TABLE_CELLS];
    each(rt, script, &mut cells);
}

fn main(rt: HostRuntime) -> io::Result<()> {
    let mut script = [0; 65536];
    let size = input::read_all(&mut rt.stdin(), &mut script)?;
    run(&rt, &mut script[..size]);
    Ok(())
}
