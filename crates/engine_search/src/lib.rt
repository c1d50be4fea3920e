// The steps of a call on a table that keeps the rules: until the end, a reading, the allowance or a refusal.
#![tactic(auto)]

ghost use Rattle.std.specs.Prelude.{◌≡◌, ◌&&◌, eqb, leb, length};
ghost use Rattle.machine.specs.declared.Answer.TheVariants.{Refused};
ghost use Rattle.machine.specs.Call.{advance};
ghost use Rattle.machine.specs.Reading.{held_of};
ghost use Rattle.machine.specs.Stack.{room_in, store};
ghost use Rattle.machine.specs.Place.{Good};
ghost use Rattle.engine_step.specs.Setting.{IsPrepared, machine_of};
ghost use Rattle.engine_search.specs.Searching.{called_with, due_at, SearchIs};

use engine_frames::Setting;
use engine_step::Turn;
use machine::{Answer, Called, Run};
use refusal::Refusal;

// Depth 0 with no initial state left is the end. Not one conjunction: it would be computed whole at each step.
fn is_over(initials: &[u16], run: Run) -> bool
    ensures { result ≡ (eqb run.depth 0 && leb (length initials.now) run.started) }
{
    if run.depth != 0 {
        return false;
    }
    initials.len() <= run.started as usize
}

// The answer that is due in a call, if one is. The end is looked for before the allowance, the allowance before the next step.
fn due_at(initials: &[u16], run: Run, steps: u32, allowance: u32) -> Option<Answer>
    ensures { result ≡ due_at (eqb run.depth 0 && leb (length initials.now) run.started) (eqb steps allowance) steps }
{
    if is_over(initials, run) {
        return Some(Answer::Ended { steps });
    }
    if steps == allowance {
        return Some(Answer::Paused { steps });
    }
    None
}

// A refusal, after so many steps.
pub fn refused(steps: u32, refusal: Refusal, run: Run) -> Called
    ensures { result ≡ called_with (Refused steps refusal) run }
{
    Called {
        answer: Answer::Refused { steps, refusal },
        run,
    }
}

// The steps of a call from a place in a search. They are counted by hand, since every answer tells them.
pub fn take_steps(
    setting: Setting<'_>,
    allowance: u32,
    run: Run,
    stack: &mut [u32],
    output: &mut [u8],
) -> Called
    requires prepared { IsPrepared setting }
    requires good { Good (machine_of setting) store (room_in stack.old) (held_of run stack.old) }
    ensures { SearchIs run output.old (advance (machine_of setting.entry) store (length output.old) allowance (held_of run stack.old)) result stack.new output.new }
{
    let mut at = run;
    let mut steps: u32 = 0;
    loop {
        if let Some(answer) = due_at(setting.initials, at, steps, allowance) {
            return Called { answer, run: at };
        }
        match engine_step::step(setting, at, stack, output) {
            Ok(Turn::Moved(next)) => at = next,
            Ok(Turn::Finds(next, length)) => {
                let steps = steps + 1;
                let answer = Answer::Found { steps, length };
                return Called { answer, run: next };
            }
            Err(cause) => return refused(steps, Refusal::State(cause), at),
        }
        steps += 1;
    }
}
