// The start of a search: 20, 11, 10, 39, then 12.
#![tactic(auto)]

ghost use Rattle.std.specs.Prelude.{◌≡◌, []};
ghost use Rattle.machine.specs.declared.StartAnswer.TheVariants.{Ready, Refused};
ghost use Rattle.machine.specs.Start.{first_run, no_run, started_with, started, StartedIs};

use engine_admission::Side;
use engine_graph::IdleGraph;
use machine::{Run, StartAnswer, Started};
use refusal::{InputCause, Refusal, StateCause};

// A run of a task under a ceiling with nothing started; of no task, 0, where a start is refused.
fn first_run(task: u32, ceiling: u32) -> Run
    ensures { result ≡ first_run task ceiling }
{
    Run {
        task,
        started: 0,
        depth: 0,
        ceiling,
    }
}

// A start that is turned down by 20, 11, 10 or 39.
fn refused(refusal: Refusal) -> Started
    ensures { result ≡ started_with (Refused refusal) no_run [] }
{
    Started {
        answer: StartAnswer::Refused(refusal),
        run: first_run(0, 0),
        cycle: [0u16; 256],
        length: 0,
    }
}

// A start that passes.
fn ready(task: u32, ceiling: u32) -> Started
    ensures { result ≡ started_with Ready (first_run task ceiling) [] }
{
    Started {
        answer: StartAnswer::Ready,
        run: first_run(task, ceiling),
        cycle: [0u16; 256],
        length: 0,
    }
}

// The start on a loaded table.
pub fn start(table: &[u16], task: u32, upper: &[u8], lower: &[u8], ceiling: u32) -> Started
    ensures { StartedIs (started table.now task upper.now lower.now ceiling) result }
{
    let Ok(checked) = table_check::check(table) else {
        return refused(Refusal::State(StateCause::LoadedTable));
    };
    if let Err(cause) = engine_admission::admitted(task, upper, lower, ceiling) {
        return refused(Refusal::Input(cause));
    }
    let at = checked.layout;
    let graph = IdleGraph {
        arcs: at.arcs(table),
        first: &checked.first,
        states: usize::from(at.states),
        upper: engine_admission::reads(task, Side::Upper),
        lower: engine_admission::reads(task, Side::Lower),
    };
    match engine_idle::find(&graph, at.initials(table)) {
        None => ready(task, ceiling),
        Some(found) => {
            let cycle = found.states;
            Started {
                answer: StartAnswer::Refused(Refusal::Input(InputCause::IdleCycle)),
                run: first_run(0, 0),
                cycle,
                length: found.length,
            }
        }
    }
}
