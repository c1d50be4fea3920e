// The cases that start a search and call for readings, on the cells of one table.
ghost use Rattle.std.specs.Prelude.{◌≤◌, length};

use crate::answers;
use cases_script::numbers::Numbers;
use cases_script::{Case, numbers, show};
use machine::{Called, FRAME_WIDTH, Run};

// Cells of a stack of 33,025 frames.
const LENT_CELLS: usize = (machine::MOST_FRAMES as usize + 1) * machine::FRAME_WIDTH;

// The letters of a word, at most so many.
const WORD_LETTERS: usize = 80;

// What a search is on: the cells of a table and the two words.
#[derive(Clone, Copy)]
struct Asked<'a> {
    table: &'a [u16],
    upper: &'a [u8],
    lower: &'a [u8],
}

// Where calls left a run, and their steps in all.
#[derive(Clone, Copy)]
struct Tally {
    run: Run,
    steps: u32,
}

// A word of a list: its count of letters, and the letters.
fn word<'a>(list: Numbers, letters: &'a mut [u8; WORD_LETTERS]) -> &'a [u8]
    ensures { length result.now ≤ 80 }
{
    let count = list.amount(0, WORD_LETTERS);
    for (k, letter) in letters.iter_mut().enumerate() {
        *letter = u8::try_from(list.after(1).at(k)).unwrap_or(answers::LETTER_MARK);
    }
    &letters[..count]
}

// A call, told.
fn made(
    rt: &impl Print,
    sign: u8,
    run: Run,
    on: Asked,
    stack: &mut [u32],
    allowance: u32,
    output: &mut [u8],
) -> Called {
    let Asked {
        table,
        upper,
        lower,
    } = on;
    let called = engine_advance::advance(table, upper, lower, run, stack, allowance, output);
    answers::tell(rt, sign, called.answer, output);
    called
}

// The same with an allowance, so many frames of the stack and an output of so many letters, which are the next numbers of a list.
fn call(
    rt: &impl Print,
    sign: u8,
    list: Numbers,
    run: Run,
    on: Asked,
    stack: &mut [u32],
) -> Called {
    let allowance = list.at(0);
    let frames = list.amount(1, stack.len() / FRAME_WIDTH);
    let room = list.amount(2, 100);
    let mut output = [answers::LETTER_MARK; 100];
    let lent = &mut stack[..FRAME_WIDTH * frames];
    made(rt, sign, run, on, lent, allowance, &mut output[..room])
}

// Calls one after the other, as long as the list has frames for one.
fn calls(
    rt: &impl Print,
    sign: u8,
    mut list: Numbers,
    mut run: Run,
    on: Asked,
    stack: &mut [u32],
) -> Tally {
    let mut steps: u32 = 0;
    let most = if sign == b'!' { 1 } else { 100 };
    for _ in 0..most {
        if list.at(1) == numbers::NONE {
            break;
        }
        let called = call(rt, sign, list, run, on, stack);
        run = called.run;
        steps = steps.saturating_add(answers::steps_of(called.answer));
        list = list.after(3);
    }
    Tally { run, steps }
}

// Whether a call left the run and the stack as they were.
fn is_kept(first: Run, last: Run, stack: &[u32], list: Numbers) -> bool {
    first == last
        && stack
            .iter()
            .enumerate()
            .all(|(k, cell)| *cell == list.at(k))
}

// The end of a case: its steps in all; of one call that made no step, whether it kept what it was lent.
fn finish(rt: &impl Print, sign: u8, list: Numbers, first: Run, last: Tally, stack: &[u32]) {
    if sign != b'!' {
        let _ = print!(rt; " {} steps", last.steps);
    } else if last.steps == 0 {
        show::touched(rt, is_kept(first, last.run, stack, list));
    }
}

// The run of a case: what the start left, or with `!` what the list has.
fn begun(case: Case, rest: usize, first: Run) -> Run {
    if case.sign != b'!' {
        return first;
    }
    let list = case.list.after(rest);
    Run {
        task: case.list.at(1),
        started: list.at(3),
        depth: list.at(4),
        ceiling: machine::MOST_CEILING,
    }
}

// The calls after a start, on a stack that begins with the numbers of the line from a place on.
fn follow(rt: &impl Print, case: Case, rest: usize, first: Run, on: Asked) {
    let sign = case.sign;
    let from = rest.saturating_add(5);
    let mut stack = [numbers::NONE; LENT_CELLS];
    numbers::read(case.line, from, &mut stack);
    let last = calls(rt, sign, case.list.after(rest), first, on, &mut stack);
    finish(rt, sign, case.list.after(from), first, last, &stack);
}

// A start, which is told, or the calls after it.
fn search(rt: &impl Print, case: Case, rest: usize, on: Asked) {
    let Asked {
        table,
        upper,
        lower,
    } = on;
    let task = case.list.at(1);
    let begin = engine_start::start(table, task, upper, lower, machine::MOST_CEILING);
    if case.sign == b'?' {
        answers::started(rt, begin);
    } else {
        follow(rt, case, rest, begun(case, rest, begin.run), on);
    }
}

// CELLS TASK, UPPER, LOWER: the query of a case, on so many cells of the table.
pub fn query(rt: &impl Print, case: Case, cells: &[u16]) {
    let size = case.list.amount(0, cells.len());
    let mut upper = [0; WORD_LETTERS];
    let mut lower = [0; WORD_LETTERS];
    let upper = word(case.list.after(2), &mut upper);
    let lower = word(case.list.after(3 + upper.len()), &mut lower);
    let rest = 4 + upper.len() + lower.len();
    let on = Asked {
        table: &cells[..size],
        upper,
        lower,
    };
    search(rt, case, rest, on);
}
