// What a line of a script holds: signs, and a list of numbers.
ghost use Rattle.std.specs.Prelude.{◌≤◌};

// What stands in a list for a number that is not given: as a count, as many as there are.
pub const NONE: u32 = u32::MAX;

// The end of a line, once the script's signs are replaced by what they stand for.
pub const END: u8 = 30;

fn plain(c: u8) -> u8 {
    match c {
        b'\n' => END,
        b'/' => b'\n',
        b'^' => b'\r',
        b'_' => 0,
        b'%' => 128,
        _ => c,
    }
}

// Replaces each sign of a script: a slash stands for a line feed of a table's text, and so on.
pub fn make_plain(text: &mut [u8]) {
    for c in text {
        *c = plain(*c);
    }
}

// A group of a list: where it begins, how often it is read and how often it was.
#[derive(Clone, Copy)]
struct Group {
    start: usize,
    turns: u32,
    turn: u32,
}

// Where the reading of numbers stands: the next sign's place, the value of the digits just read where there are any, and the group.
#[derive(Clone, Copy)]
struct Scan {
    at: usize,
    value: Option<u32>,
    group: Group,
}

// A value with one digit more, and the largest number where that is too large.
fn grown(value: u32, digit: u8) -> u32 {
    if value < NONE / 10 {
        10 * value + u32::from(digit % 16)
    } else {
        NONE
    }
}

// Whether a sign is part of a number, or makes it the count of a group's turns.
fn goes_on(c: u8) -> bool {
    matches!(c, b'(' | b'+' | b'-' | b'0'..=b'9')
}

impl Scan {
    // At a group that is read from its beginning, or behind one that is left.
    fn at_group(at: usize, turns: u32, turn: u32) -> Scan {
        Scan {
            at,
            value: None,
            group: Group {
                start: at,
                turns,
                turn,
            },
        }
    }

    // A sign passed. The end of a group goes back to its beginning, or on.
    fn step(self, c: u8) -> Scan {
        let Group { start, turns, turn } = self.group;
        let next = self.at.saturating_add(1);
        let value = self.value.unwrap_or(0);
        match c {
            b')' => {
                let turn = turn.saturating_add(1);
                if turn < turns {
                    Scan::at_group(start, turns, turn)
                } else {
                    Scan::at_group(next, 0, 0)
                }
            }
            b'(' => Scan::at_group(next, value, 0),
            _ => Scan {
                at: next,
                value: match c {
                    b'+' => Some(value.saturating_add(turn)),
                    b'-' => Some(value.saturating_sub(turn)),
                    b'0'..=b'9' => Some(grown(value, c)),
                    _ => None,
                },
                ..self
            },
        }
    }
}

// Fills a list with the numbers of a text up to a bar, from the number of a place on.
pub fn read(text: &[u8], from: usize, list: &mut [u32]) {
    let mut scan = Scan::at_group(0, 0, 0);
    let mut count: usize = 0;
    for _ in 0..100000 {
        let c = text.get(scan.at).copied().unwrap_or(b'|');
        if let Some(value) = scan.value
            && !goes_on(c)
        {
            if let Some(place) = count.checked_sub(from).and_then(|k| list.get_mut(k)) {
                *place = value;
            }
            count = count.saturating_add(1);
        }
        if c == b'|' {
            return;
        }
        scan = scan.step(c);
    }
}

// The numbers of a case. Behind their end each is one that is not given.
#[derive(Clone, Copy)]
pub struct Numbers<'a>(pub &'a [u32]);

impl<'a> Numbers<'a> {
    // Those behind so many.
    pub fn after(self, count: usize) -> Numbers<'a> {
        Numbers(self.0.get(count..).unwrap_or(&[]))
    }

    pub fn at(self, k: usize) -> u32 {
        self.0.get(k).copied().unwrap_or(NONE)
    }

    // The same as a count, of so many.
    pub fn amount(self, k: usize, all: usize) -> usize
        ensures { result ≤ all }
    {
        all.min(self.at(k) as usize)
    }
}
