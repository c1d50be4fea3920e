// A push: judged first; then, where it is made, its arc is counted, its frame put, and the output of an accepting path written.
#![tactic(auto)]

ghost use Rattle.std.specs.Prelude.{◌≡◌, true, ◌||◌, ℕ, suc, ◌-◌, ◌<◌, ◌≤◌, ltb, length, get_or};
ghost use Rattle.machine.specs.Stack.{frames_in, room_in, look_at, put_at};
ghost use Rattle.engine_push.specs.Pushing.{frame_in, verdict_by, tried_below, Pushable, pushed_cells, pushed_output};

use engine_frames::{Frame, Passed, Setting, cells};
use refusal::StateCause;

// A frame to push: its state, the letters passed and the sum of penalties, with the run's numbers after the push.
#[derive(Clone, Copy)]
pub struct NewFrame {
    pub started: u32,
    pub depth: u32,
    pub state: u16,
    pub passed: Passed,
    pub sum: u32,
}

// 22: whether a push finds room on the stack.
fn has_room(stack: &[u32], depth: u32) -> bool
    ensures { result ≡ ltb depth (room_in stack.now) }
{
    depth < machine::MOST_FRAMES && (depth as usize) < cells::frames_in(stack)
}

// What a push meets: 22, then acceptance, then 23. It only looks. An accepting path gives the length of its output.
fn judge(
    setting: Setting<'_>,
    added: NewFrame,
    stack: &[u32],
    space: usize,
) -> Result<Option<u32>, StateCause>
    requires low_value { (setting.setup.up || setting.setup.low) ≡ true }
    requires le_depth { 1 ≤ added.depth }
    ensures { result ≡ verdict_by setting.entry.setup setting.entry.terminals.now setting.entry.upper.now setting.entry.lower.now (added.depth - 1) added stack.now space }
{
    if !has_room(stack, added.depth - 1) {
        return Err(StateCause::StackFull);
    }
    if !setting.accepts(added.state, added.passed) {
        return Ok(None);
    }
    let length = setting.setup.written(added.passed);
    if space < length as usize {
        return Err(StateCause::OutputFull);
    }
    Ok(Some(length))
}

// The arc that leads to a push, counted as tried in the frame that it leaves. At depth 0 there is none.
fn count_arc(depth: u32, stack: &mut [u32])
    requires depth_bound { depth ≤ frames_in stack.old }
    requires by_index { (d : ℕ) → depth ≡ suc d → (look_at stack.old d).next ≤ 1024 }
    ensures { stack.new ≡ tried_below stack.old depth }
{
    if depth != 0 {
        cells::count_tried(stack, depth as usize - 1);
    }
}

// The new frame, put at its place.
fn enter(first: &[u16], added: NewFrame, stack: &mut [u32])
    requires { (1 ≤ added.depth) × (added.depth ≤ frames_in stack.old) × (added.state < length first.now) }
    ensures { stack.new ≡ put_at stack.old (added.depth - 1) (frame_in added (get_or first.now added.state 0)) }
{
    let f = Frame {
        state: u32::from(added.state),
        next: u32::from(first[usize::from(added.state)]),
        passed: added.passed,
        sum: added.sum,
    };
    cells::put(stack, added.depth as usize - 1, f);
}

// A push: judged first; then its arc is counted and the frame put, and on an accepting path the output is written.
pub fn push(
    setting: Setting<'_>,
    added: NewFrame,
    stack: &mut [u32],
    output: &mut [u8],
) -> Result<Option<u32>, StateCause>
    requires le_depth { 1 ≤ added.depth }
    requires pushable { Pushable setting.setup setting.first.now setting.terminals.now setting.arcs.now setting.upper.now setting.lower.now (added.depth - 1) added stack.old output.old }
    ensures { (result ≡ verdict_by setting.entry.setup setting.entry.terminals.now setting.entry.upper.now setting.entry.lower.now (added.depth - 1) added stack.old (length output.old))
        × (stack.new ≡ pushed_cells result stack.old (added.depth - 1) (frame_in added (get_or setting.entry.first.now added.state 0)))
        × (output.new ≡ pushed_output result setting.entry.setup setting.entry.arcs.now setting.entry.upper.now setting.entry.lower.now stack.new (added.depth - 1) output.old) }
{
    let below = added.depth - 1;
    let accepted = judge(setting, added, stack, output.len())?;
    count_arc(below, stack);
    enter(setting.first, added, stack);
    if let Some(length) = accepted {
        setting.write(stack, below as usize, length, output);
    }
    Ok(accepted)
}
