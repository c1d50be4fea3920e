// Refusal 21: is the run with its used frames a place in a search?
#![tactic(auto)]

ghost use Rattle.std.specs.Prelude.{◌≡◌, ◌+◌, ◌-◌, ◌<◌, ◌≤◌, eqb, length};
ghost use Rattle.machine.specs.Frames.{frames_of, chain_holds, place_holds};
ghost use Rattle.machine.specs.Stack.{most_frames, frames_in, look_at, store};
ghost use Rattle.machine.specs.Reading.{held_of};
ghost use Rattle.engine_frames.specs.Frames.{frame_of};
ghost use Rattle.engine_step.specs.Setting.{moving_of};
ghost use Rattle.engine_place.specs.Place.{next_by, bottom_by, link_by, class_link_by, Linkable, IsPreparedBut, Standing, FirstUnlinked};

use engine_frames::{Frame, Setting, Setup, cells, sides};
use machine::Run;
use table_format::FIRST_CLASS;

// A next arc inside its state's arcs; one past the last is allowed.
fn next_holds(first: &[u16], state: u32, next: u32) -> bool
    requires { state + 1 < length first.now }
    ensures { result ≡ next_by first.now state next }
{
    let at = state as usize;
    u32::from(first[at]) <= next && next <= u32::from(first[at + 1])
}

// The bottom frame is the last started state with nothing passed and no penalty.
fn bottom_holds(initials: &[u16], started: u32, f: Frame) -> bool
    requires { (0 < started) × (started ≤ length initials.now) }
    ensures { result ≡ bottom_by initials.now started f }
{
    f.state == u32::from(initials[started as usize - 1])
        && 0 == f.passed.up
        && 0 == f.passed.low
        && 0 == f.sum
}

// A sum is another with an arc's penalty added.
fn sum_holds(below: u32, penalty: u16, sum: u32) -> bool
    ensures { result ≡ eqb (below + penalty) sum }
{
    u64::from(below) + u64::from(penalty) == u64::from(sum)
}

// The frame at i is what the arc just tried in the frame g below it, whose state's arcs begin at `begin`, makes by the rules of the sides. It is
// looked at when that is known, so that fewer values are held at a time. Here and in `links_from` the setting goes in by its parts: over the
// struct the loop takes half as many instructions more.
fn link_holds(
    setup: Setup,
    begin: u32,
    arcs: &[u16],
    upper: &[u8],
    lower: &[u8],
    g: Frame,
    stack: &[u32],
    i: usize,
) -> bool
    requires linkable { Linkable arcs.now g }
    requires i_bound { i < frames_in stack.now }
    ensures { result ≡ link_by setup begin arcs.now upper.now lower.now g (frame_of (look_at stack.now i)) }
{
    if g.next <= begin {
        return false;
    }
    let arc = table_format::arc_at(arcs, g.next as usize - 1);
    let Some(passed) = sides::follow(setup, arc, upper, lower, g.passed) else {
        return false;
    };
    let f = cells::look(stack, i);
    f.state == u32::from(arc.target)
        && passed.up == f.passed.up
        && passed.low == f.passed.low
        && sum_holds(g.sum, arc.penalty, f.sum)
}

// The same by the arc's class.
fn class_link_holds(setting: Setting<'_>, g: Frame, f: Frame) -> bool
    requires { (g.state < length setting.first.now) × Linkable setting.arcs.now g }
    ensures { result ≡ class_link_by setting.entry.setup setting.entry.classes.now setting.entry.first.now setting.entry.arcs.now setting.entry.upper.now setting.entry.lower.now g f }
{
    if g.next <= u32::from(setting.first[g.state as usize]) {
        return false;
    }
    let arc = table_format::arc_at(setting.arcs, g.next as usize - 1);
    if arc.upper < FIRST_CLASS {
        return false;
    }
    let x = sides::letter_after(setting.upper, g.passed.up);
    let y = sides::letter_after(setting.lower, g.passed.low);
    sides::class_fits(setting.setup, setting.classes, arc.upper, x, y)
        && f.state == u32::from(arc.target)
        && g.passed.up + 1 == f.passed.up
        && g.passed.low + 1 == f.passed.low
        && sum_holds(g.sum, arc.penalty, f.sum)
}

// The first frame, from one on, that is not so linked by the rules of the sides with the frame below it, or whose next arc is not its state's;
// `depth` where there is none.
fn links_from(
    setup: Setup,
    first: &[u16],
    arcs: &[u16],
    from: usize,
    depth: usize,
    stack: &[u32],
    upper: &[u8],
    lower: &[u8],
) -> usize
    requires standing { Standing setup first.now arcs.now upper.now lower.now stack.now from }
    requires from_le_depth { (from ≤ depth) × (depth ≤ frames_in stack.now) × (depth ≤ most_frames) }
    ensures { FirstUnlinked setup first.now arcs.now upper.now lower.now stack.now from depth result }
{
    let mut g = cells::look(stack, from - 1);
    let mut begin = u32::from(first[g.state as usize]);
    for i in from..depth {
        if !link_holds(setup, begin, arcs, upper, lower, g, stack, i) {
            return i;
        }
        let f = cells::look(stack, i);
        let at = f.state as usize;
        begin = u32::from(first[at]);
        if f.next < begin || u32::from(first[at + 1]) < f.next {
            return i;
        }
        g = f;
    }
    depth
}

// The used frames, from the bottom up, where there are some. Sums never fall from frame to frame, so that the top one's shows whether all are
// within the ceiling. Links by classes are looked at outside the loop over the others, which is quicker so.
fn frames_hold(setting: Setting<'_>, started: u32, depth: usize, stack: &[u32]) -> bool
    requires by_index { IsPreparedBut setting }
    requires started_nonzero { (0 < started) × (started ≤ length setting.initials.now) }
    requires depth_nonzero { (0 < depth) × (depth ≤ frames_in stack.now) × (depth ≤ most_frames) }
    ensures { result ≡ chain_holds (moving_of setting.entry) started (frames_of store stack.now (depth - 1)) (look_at stack.now (depth - 1)) }
{
    let top = cells::look(stack, depth - 1);
    if setting.setup.ceiling < top.sum {
        return false;
    }
    let b = cells::look(stack, 0);
    if !bottom_holds(setting.initials, started, b) || !next_holds(setting.first, b.state, b.next) {
        return false;
    }
    let mut i = links_from(
        setting.setup,
        setting.first,
        setting.arcs,
        1,
        depth,
        stack,
        setting.upper,
        setting.lower,
    );
    while i < depth {
        let g = cells::look(stack, i - 1);
        let f = cells::look(stack, i);
        if !class_link_holds(setting, g, f) || !next_holds(setting.first, f.state, f.next) {
            return false;
        }
        i = links_from(
            setting.setup,
            setting.first,
            setting.arcs,
            i + 1,
            depth,
            stack,
            setting.upper,
            setting.lower,
        );
    }
    true
}

// Starts, depth and room, then the frames.
pub fn place_holds(setting: Setting<'_>, run: Run, stack: &[u32]) -> bool
    requires { IsPreparedBut setting }
    ensures { result ≡ place_holds (moving_of setting.entry) store (held_of run stack.now) }
{
    let used = run.depth as usize;
    if setting.initials.len() < run.started as usize
        || machine::MOST_FRAMES < run.depth
        || cells::frames_in(stack) < used
    {
        return false;
    }
    used == 0 || (run.started != 0 && frames_hold(setting, run.started, used, stack))
}
