// What a table, its cells and its text are, as definitions with their laws. The only code takes an arc out of its cells and gives its cells.
#![tactic(auto)]

ghost use Rattle.std.specs.Prelude.{◌≡◌, ◌<◌};
ghost use Rattle.table_format.specs.Cells.{arc_count, arc_of, arc_held, arc_said};
ghost use Rattle.table_format.specs.Loaded.{arc_cells};

// The cells of an arc.
pub const ARC_WIDTH: usize = 5;

// The letter classes of a table, each a row of letters.
pub const CLASS_COUNT: usize = 8;

// The cells of a row.
pub const ROW_WIDTH: usize = 16;

// The letter of an arc that means class 0.
pub const FIRST_CLASS: u16 = 64;

// Where the classes of a loaded table begin, after its counts.
pub const CLASSES_AT: usize = 4;

// Where its initial states begin, after the classes.
pub const INITIALS_AT: usize = CLASSES_AT + CLASS_COUNT * ROW_WIDTH;

// The most cells of a table: 256 initial states, 256 terminal states, 1,024 arcs.
pub const MOST_CELLS: usize = 5764;

// The first byte of the header line.
pub const HEADER_KIND: u8 = 1;

// Of an initial state's line.
pub const INITIAL_KIND: u8 = 2;

// Of a terminal state's line.
pub const TERMINAL_KIND: u8 = 3;

// Of an arc's line, where it has no penalty.
pub const ARC_KIND: u8 = 4;

// Of the end line.
pub const END_KIND: u8 = 5;

// Of a class's line.
pub const CLASS_KIND: u8 = 6;

// Of an arc's line, where it has a penalty.
pub const PENALTY_KIND: u8 = 7;

// The bytes of the header line.
pub const HEADER_BYTES: usize = 9;

// The most bytes of a line of a table's text: a class's of sixteen letters.
pub const LINE_BYTES: usize = 2 + ROW_WIDTH;

// The fewest bytes of a class's line.
pub const CLASS_BYTES: usize = 3;

// The bytes of the line of a state, and of the end line.
pub const STATE_BYTES: usize = 3;

// The bytes of an arc's line, where it has no penalty.
pub const ARC_BYTES: usize = 7;

// Where it has one, which is the last byte.
pub const PENALTY_BYTES: usize = ARC_BYTES + 1;

// The characters of the header line, with its line feed.
pub const HEADER_LINE: usize = 2 * HEADER_BYTES + 1;

// The characters of the line of a state, and of the end line, with its line feed.
pub const STATE_LINE: usize = 2 * STATE_BYTES + 1;

// The characters of an arc's line, with its line feed, where it has no penalty.
pub const ARC_LINE: usize = 2 * ARC_BYTES + 1;

// Where it has one.
pub const PENALTY_LINE: usize = 2 * PENALTY_BYTES + 1;

// The most that an arc's penalty can be.
pub const MOST_PENALTY: u16 = 255;

// An arc, out of its cells.
#[derive(Clone, Copy, Debug, PartialEq, Eq)]
pub struct Arc {
    pub source: u16,
    pub upper: u16,
    pub lower: u16,
    pub target: u16,
    pub penalty: u16,
}

impl Arc {
    // Its cells.
    pub fn cells(self) -> [u16; ARC_WIDTH]
        ensures { result ≡ arc_cells (arc_said self) }
    {
        [
            self.source,
            self.upper,
            self.lower,
            self.target,
            self.penalty,
        ]
    }
}

// The arc of number `n`.
pub fn arc_at(arcs: &[u16], n: usize) -> Arc
    requires { n < arc_count arcs.now }
    ensures { result ≡ arc_held (arc_of arcs.now n) }
{
    let at = ARC_WIDTH * n;
    Arc {
        source: arcs[at],
        upper: arcs[at + 1],
        lower: arcs[at + 2],
        target: arcs[at + 3],
        penalty: arcs[at + 4],
    }
}
