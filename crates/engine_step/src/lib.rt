// One step of a search.
#![tactic(auto)]

ghost use Rattle.std.specs.Prelude.{◌≡◌, true, ◌||◌, ◌-◌, ◌<◌, ◌≤◌, length};
ghost use Rattle.machine.specs.Step.{move, step};
ghost use Rattle.machine.specs.Query.{most_ceiling};
ghost use Rattle.machine.specs.Stack.{most_frames, frames_in, room_in, look_at, store};
ghost use Rattle.machine.specs.Reading.{held_of};
ghost use Rattle.machine.specs.Place.{Good};
ghost use Rattle.table_format.specs.Cells.{arc_said, arc_count, arc_of};
ghost use Rattle.engine_frames.specs.Sides.{fit_of, passed_in, follow_in};
ghost use Rattle.engine_step.specs.Setting.{SmallWords, Alike, Top, IsPrepared, machine_of, moving_of};
ghost use Rattle.engine_step.specs.Stepping.{push_along, move_as, TurnIs};

use engine_frames::{Passed, Setting, cells, sides};
use engine_push::NewFrame;
use machine::Run;
use refusal::StateCause;
use table_format::{Arc, FIRST_CLASS};

// What a step is to do: a frame dropped, an arc tried that does not fit, or a frame pushed.
#[derive(Clone, Copy)]
pub enum Move {
    Drops,
    Skips,
    Pushes(NewFrame),
}

// What a step comes to: the run after it, or a reading's length beside that run.
#[derive(Clone, Copy)]
pub enum Turn {
    Moved(Run),
    Finds(Run, u32),
}

// What an arc makes of the letters passed, if it fits. No letter of a word means a class, so that an arc of a class never fits by the rules of
// the sides: classes are looked at only where those fail.
fn fit(setting: Setting<'_>, arc: Arc, passed: Passed) -> Option<Passed>
    requires up_bound { (passed.up < 4294967295) × (passed.low < 4294967295) }
    requires alike { Alike (arc_said arc) × SmallWords setting.upper.now setting.lower.now × ((setting.setup.up || setting.setup.low) ≡ true) }
    ensures { result ≡ fit_of (follow_in setting.entry.setup setting.entry.classes.now setting.entry.upper.now setting.entry.lower.now (arc_said arc) (passed_in passed)) }
{
    let plain = sides::follow(setting.setup, arc, setting.upper, setting.lower, passed);
    if plain.is_some() {
        return plain;
    }
    if arc.upper < FIRST_CLASS {
        return None;
    }
    let x = sides::letter_after(setting.upper, passed.up);
    let y = sides::letter_after(setting.lower, passed.low);
    if sides::class_fits(setting.setup, setting.classes, arc.upper, x, y) {
        Some(Passed {
            up: passed.up + 1,
            low: passed.low + 1,
        })
    } else {
        None
    }
}

// The push along the top frame's next arc, which fits by its letters, if the sum stays within the ceiling. Every frame below stays, also one with
// no arcs left: its letter is still needed for the output. Frame and arc are looked at once more for it, so that fewer values are held before.
fn within_ceiling(setting: Setting<'_>, run: Run, stack: &[u32], passed: Passed) -> Move
    requires le_depth { (1 ≤ run.depth) × (run.depth ≤ frames_in stack.now) × (run.depth ≤ most_frames) }
    requires depth_bound { ((look_at stack.now (run.depth - 1)).next < arc_count setting.arcs.now) × ((look_at stack.now (run.depth - 1)).datum.1 ≤ most_ceiling) }
    ensures { result ≡ push_along run.started run.depth setting.entry.setup.ceiling (arc_of setting.entry.arcs.now (look_at stack.now (run.depth - 1)).next) (passed_in passed) (look_at stack.now (run.depth - 1)).datum.1 }
{
    let f = cells::look(stack, run.depth as usize - 1);
    let arc = table_format::arc_at(setting.arcs, f.next as usize);
    match sides::add(setting.setup.ceiling, f.sum, arc.penalty) {
        None => Move::Skips,
        Some(sum) => Move::Pushes(NewFrame {
            started: run.started,
            depth: run.depth + 1,
            state: arc.target,
            passed,
            sum,
        }),
    }
}

// What the next step is to do.
fn choose(setting: Setting<'_>, run: Run, stack: &[u32]) -> Move
    requires top { Top setting.first.now setting.initials.now setting.arcs.now run.started run.depth stack.now }
    requires small_words { SmallWords setting.upper.now setting.lower.now × ((setting.setup.up || setting.setup.low) ≡ true) }
    ensures { result ≡ move_as run.started run.depth (move (moving_of setting.entry) store (held_of run stack.now)) }
{
    if run.depth == 0 {
        return Move::Pushes(NewFrame {
            started: run.started + 1,
            depth: 1,
            state: setting.initials[run.started as usize],
            passed: Passed { up: 0, low: 0 },
            sum: 0,
        });
    }
    let f = cells::look(stack, run.depth as usize - 1);
    let next = f.next as usize;
    let end = usize::from(setting.first[f.state as usize + 1]);
    if end <= next {
        return Move::Drops;
    }
    let arc = table_format::arc_at(setting.arcs, next);
    match fit(setting, arc, f.passed) {
        None => Move::Skips,
        Some(passed) => within_ceiling(setting, run, stack, passed),
    }
}

// One step, where there is one: what it comes to, or its refusal, with the cells and the output that it leaves.
pub fn step(
    setting: Setting<'_>,
    run: Run,
    stack: &mut [u32],
    output: &mut [u8],
) -> Result<Turn, StateCause>
    requires prepared { IsPrepared setting }
    requires good { Good (machine_of setting) store (room_in stack.old) (held_of run stack.old) }
    requires started_in_bounds { run.depth ≡ 0 → run.started < length setting.initials.now }
    ensures { TurnIs run (step (machine_of setting.entry) store (length output.old) (held_of run stack.old)) stack.old output.old result stack.new output.new }
{
    match choose(setting, run, stack) {
        Move::Drops => Ok(Turn::Moved(Run {
            depth: run.depth - 1,
            ..run
        })),
        Move::Skips => {
            cells::count_tried(stack, run.depth as usize - 1);
            Ok(Turn::Moved(run))
        }
        Move::Pushes(added) => {
            let accepted = engine_push::push(setting, added, stack, output)?;
            let next = Run {
                started: added.started,
                depth: added.depth,
                ..run
            };
            match accepted {
                None => Ok(Turn::Moved(next)),
                Some(length) => Ok(Turn::Finds(next, length)),
            }
        }
    }
}
