// The frames of a stack. Only these functions know the cells of a frame.
ghost use Rattle.std.specs.Prelude.{◌≡◌, ◌<◌};
ghost use Rattle.machine.specs.Step.{tried_of};
ghost use Rattle.machine.specs.Stack.{frames_in, look_at, put_at};
ghost use Rattle.engine_frames.specs.Frames.{frame_of, frame_as};

use crate::{Frame, Passed};
use machine::FRAME_WIDTH;

// How many frames a stack has.
pub fn frames_in(stack: &[u32]) -> usize
    ensures { result ≡ frames_in stack.now }
{
    stack.len() / FRAME_WIDTH
}

// The frame at i.
pub fn look(stack: &[u32], i: usize) -> Frame
    requires { i < frames_in stack.now }
    ensures { result ≡ frame_of (look_at stack.now i) }
{
    let at = i * FRAME_WIDTH;
    Frame {
        state: stack[at],
        next: stack[at + 1],
        passed: Passed {
            up: stack[at + 2],
            low: stack[at + 3],
        },
        sum: stack[at + 4],
    }
}

// A frame put at i.
pub fn put(stack: &mut [u32], i: usize, f: Frame)
    requires { i < frames_in stack.old }
    ensures { stack.new ≡ put_at stack.old i (frame_as f) }
{
    let at = i * FRAME_WIDTH;
    stack[at] = f.state;
    stack[at + 1] = f.next;
    stack[at + 2] = f.passed.up;
    stack[at + 3] = f.passed.low;
    stack[at + 4] = f.sum;
}

// The next arc of the frame at i counted as tried.
pub fn count_tried(stack: &mut [u32], i: usize)
    requires i_bound { i < frames_in stack.old }
    requires i_bound_2 { (look_at stack.old i).next < 4294967295 }
    ensures { stack.new ≡ put_at stack.old i (tried_of (look_at stack.old i)) }
{
    let at = i * FRAME_WIDTH + 1;
    stack[at] += 1;
}
