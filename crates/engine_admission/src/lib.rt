// Refusals 11, 10 and 39, which a start and a call look for in this order after 20; and the sides that a task reads.
#![tactic(auto)]

ghost use Rattle.std.specs.Prelude.{◌≡◌, ◌||◌, ◌&&◌, List, ℕ};
ghost use Rattle.std.proofs.Math.Option.{some};
ghost use Rattle.table_format.specs.Rules.{is_empty};
ghost use Rattle.table_format.specs.Loaded.{table_in, loaded};
ghost use Rattle.machine.specs.Query.{word_holds};
ghost use Rattle.machine.specs.Asked.{asked};
ghost use Rattle.engine_admission.specs.Admission.{side_of, reads_at, task_holds, admission_of, as_refusal};

use refusal::InputCause;

// A side of an arc.
#[derive(Clone, Copy, PartialEq, Eq, Debug)]
pub enum Side {
    Upper,
    Lower,
}

// Whether a task reads a side. A number that is no task's reads none.
#[tactic(auto, unfolding(crate::specs::Admission::reads_at))]
pub fn reads(task: u32, side: Side) -> bool
    ensures { result ≡ reads_at task (side_of side) }
{
    match side {
        Side::Upper => matches!(task, 1 | 2),
        Side::Lower => matches!(task, 1 | 3),
    }
}

// 10, of one word. The loop goes through all its letters, so that several are compared at once.
fn word_holds(w: &[u8]) -> bool
    ensures { result ≡ word_holds w.now }
{
    if 64 < w.len() {
        return false;
    }
    let mut hold = true;
    for x in w {
        hold &= (1..=63).contains(x);
    }
    hold
}

// 11, of one side.
fn side_holds(read: bool, w: &[u8]) -> bool
    ensures { result ≡ (read || is_empty w.now) }
{
    read || w.is_empty()
}

// 11, of the task and both sides.
fn task_holds(task: u32, upper: &[u8], lower: &[u8]) -> bool
    ensures { result ≡ task_holds task upper.now lower.now }
{
    (1..=3).contains(&task)
        && side_holds(reads(task, Side::Upper), upper)
        && side_holds(reads(task, Side::Lower), lower)
}

// 10, of both words.
fn words_hold(upper: &[u8], lower: &[u8]) -> bool
    ensures { result ≡ (word_holds upper.now && word_holds lower.now) }
{
    word_holds(upper) && word_holds(lower)
}

// 11, 10 and 39, of what is asked of a table that keeps the rules.
pub fn admitted(task: u32, upper: &[u8], lower: &[u8], ceiling: u32) -> Result<(), InputCause>
    ensures { (cells : List ℕ) → loaded cells ≡ some (table_in cells) → as_refusal result ≡ admission_of (asked cells task upper.now lower.now ceiling) }
{
    if !task_holds(task, upper, lower) {
        return Err(InputCause::TaskFault);
    }
    if !words_hold(upper, lower) {
        return Err(InputCause::WordFault);
    }
    if machine::MOST_CEILING < ceiling {
        return Err(InputCause::CeilingLimit);
    }
    Ok(())
}
