// What starts and calls answer, told.
use cases_script::show;
use machine::{Answer, Run, StartAnswer, Started};

// What an output is filled with: no letter is this.
pub const LETTER_MARK: u8 = 255;

// The steps of an answer.
pub fn steps_of(answer: Answer) -> u32 {
    match answer {
        Answer::Found { steps, .. } => steps,
        Answer::Paused { steps } => steps,
        Answer::Ended { steps } => steps,
        Answer::Refused { steps, .. } => steps,
    }
}

// How many letters it wrote.
fn length_of(answer: Answer) -> usize {
    match answer {
        Answer::Found { length, .. } => length as usize,
        _ => 0,
    }
}

fn name(rt: &impl Print, answer: Answer) {
    match answer {
        Answer::Found { .. } => show::say(rt, b" Found"),
        Answer::Paused { .. } => show::say(rt, b" Paused"),
        Answer::Ended { .. } => show::say(rt, b" Ended"),
        Answer::Refused { refusal, .. } => show::refused(rt, refusal),
    }
}

// The letters of a reading, each after a blank, or with `~` as one word.
fn spell(rt: &impl Print, sign: u8, letters: &[u8]) {
    if sign == b'~' {
        show::say(rt, b" ");
    }
    show::letters(rt, letters, sign == b'~');
}

// An answer, with the output as the call left it.
pub fn tell(rt: &impl Print, sign: u8, answer: Answer, output: &[u8]) {
    let length = length_of(answer);
    name(rt, answer);
    if 0 < length && length <= output.len() {
        spell(rt, sign, &output[..length]);
    }
    let steps = steps_of(answer);
    let _ = print!(rt; " after {steps}");
    show::touched(rt, show::is_marked(output, length, &LETTER_MARK));
    if sign != b'!' {
        show::say(rt, b",");
    }
}

fn ready(rt: &impl Print, run: Run) {
    let _ = print!(rt; " ready, run {} {} {}", run.task, run.started, run.depth);
}

// What a start answered: the run, or the refusal and with 12 the states of the cycle.
pub fn started(rt: &impl Print, started: Started) {
    match started.answer {
        StartAnswer::Ready => ready(rt, started.run),
        StartAnswer::Refused(refusal) => {
            show::refused(rt, refusal);
            if started.length > 0 {
                show::say(rt, b", cycle");
                show::cells(rt, &started.cycle, 0, started.length as usize);
            }
        }
    }
}
