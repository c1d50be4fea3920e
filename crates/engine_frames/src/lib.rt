// Frames: their cells on a stack, what an arc makes of their counts, whether their path accepts, and its output.
#![tactic(auto)]

pub mod cells;
pub mod output;
pub mod sides;

// What a search needs of its table, task and run besides their lists: the count of states, whether each side is read, and the ceiling.
#[derive(Clone, Copy)]
pub struct Setup {
    pub states: u16,
    pub up: bool,
    pub low: bool,
    pub ceiling: u32,
}

// A frame: its state, its next arc, the letters passed, and the sum of the penalties on its path.
#[derive(Clone, Copy)]
pub struct Frame {
    pub state: u32,
    pub next: u32,
    pub passed: Passed,
    pub sum: u32,
}

// How many letters were passed on each side.
#[derive(Clone, Copy)]
pub struct Passed {
    pub up: u32,
    pub low: u32,
}

// What a search goes by: its setup, the classes, the first-arc index and the lists of its table, and the words.
#[derive(Clone, Copy)]
pub struct Setting<'a> {
    pub setup: Setup,
    pub classes: &'a [[u8; 16]; 8],
    pub first: &'a [u16],
    pub initials: &'a [u16],
    pub terminals: &'a [u16],
    pub arcs: &'a [u16],
    pub upper: &'a [u8],
    pub lower: &'a [u8],
}
