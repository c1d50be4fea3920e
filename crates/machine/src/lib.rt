// The types of a search for readings, and the sizes of its stack. What they mean is in specs/.
#![tactic(auto)]

// The cells of a frame of a stack.
pub const FRAME_WIDTH: usize = 5;

// At most 33,024 frames of a stack are used.
pub const MOST_FRAMES: u32 = 33024;

// The highest ceiling of a run.
pub const MOST_CEILING: u32 = 100000;

// The caller's record of a search: its task, how many initial states are started, how many frames are in use, and the ceiling for the sum of the
// penalties on a path, which its start fixes.
#[repr(C)]
#[derive(Clone, Copy, PartialEq, Eq)]
pub struct Run {
    pub task: u32,
    pub started: u32,
    pub depth: u32,
    pub ceiling: u32,
}

// What a call for a reading answers, with the steps made in it.
#[derive(Clone, Copy)]
pub enum Answer {
    Found {
        steps: u32,
        length: u32,
    },
    Paused {
        steps: u32,
    },
    Ended {
        steps: u32,
    },
    Refused {
        steps: u32,
        refusal: refusal::Refusal,
    },
}

// An answer, with the run moved on.
#[derive(Clone, Copy)]
pub struct Called {
    pub answer: Answer,
    pub run: Run,
}

// What a start answers.
#[derive(Clone, Copy)]
pub enum StartAnswer {
    Ready,
    Refused(refusal::Refusal),
}

// What a start gives back: the run to go on with, and with refusal 12 the states of the idle cycle that is to be shown.
#[derive(Clone, Copy)]
pub struct Started {
    pub answer: StartAnswer,
    pub run: Run,
    pub cycle: [u16; 256],
    pub length: u32,
}
