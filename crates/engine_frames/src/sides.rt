// What an arc makes of a side, and of both; and whether a frame's path accepts. The side is a parameter.
ghost use Rattle.std.specs.Prelude.{◌≡◌, true, ◌&&◌, ◌||◌, ◌-◌, ◌<◌, ◌≤◌, get_or};
ghost use Rattle.table_format.specs.Rules.{any};
ghost use Rattle.table_format.specs.Classes.{first_class, row_of};
ghost use Rattle.table_format.specs.Cells.{arc_said};
ghost use Rattle.machine.specs.Query.{most_ceiling};
ghost use Rattle.machine.specs.Transducer.{member, side_follow, side_done, in_row};
ghost use Rattle.engine_frames.specs.Sides.{count_of, fit_of, passed_in, follow_by, class_fits, summed, done_by, written_of};

use crate::{Passed, Setting, Setup};
use table_format::{Arc, FIRST_CLASS};

// A letter on a side that is read (or written) after n letters: the count after it, if it fits.
pub fn follow_side(read: bool, word: &[u8], letter: u16, n: u32) -> Option<u32>
    requires { n < 4294967295 }
    ensures { result ≡ count_of (side_follow read word.now letter n) }
{
    if letter == 0 {
        Some(n)
    } else if !read || u16::from(letter_after(word, n)) == letter {
        Some(n + 1)
    } else {
        None
    }
}

// An arc by the rules of the sides, after what was passed. By its parts, as `class_fits`.
pub fn follow(setup: Setup, arc: Arc, upper: &[u8], lower: &[u8], passed: Passed) -> Option<Passed>
    requires { (passed.up < 4294967295) × (passed.low < 4294967295) }
    ensures { result ≡ fit_of (follow_by setup upper.now lower.now (arc_said arc) (passed_in passed)) }
{
    let up = follow_side(setup.up, upper, arc.upper, passed.up)?;
    let low = follow_side(setup.low, lower, arc.lower, passed.low)?;
    Some(Passed { up, low })
}

// The letter of a word after n letters, 0 at its end.
pub fn letter_after(word: &[u8], n: u32) -> u8
    ensures { result ≡ get_or word.now n 0 }
{
    word.get(n as usize).copied().unwrap_or(0)
}

// The class that a letter of an arc means.
fn class_of(letter: u16) -> usize
    ensures { result ≡ letter - first_class }
{
    usize::from(letter.saturating_sub(FIRST_CLASS))
}

// Whether a list has an item. The loop goes through the whole list, so that several items are compared at once.
pub fn is_member<T: Copy + PartialEq>(list: &[T], x: T) -> bool
    ensures { result ≡ any (λ y. T.eq y x) list.now }
{
    let mut found = false;
    for y in list {
        found |= *y == x;
    }
    found
}

// Whether a letter is in the class that an arc's letter means. 0, at a word's end, is in none.
fn in_class(classes: &[[u8; 16]], letter: u16, x: u8) -> bool
    ensures { result ≡ in_row x (row_of classes.now letter) }
{
    let class = class_of(letter);
    x != 0 && class < classes.len() && is_member(&classes[class], x)
}

// Whether an arc of a class fits, where x is the upper word's next letter and y the lower word's: that of every word that is read is one letter
// of the class. Its arguments are numbers, so that a step can keep the words' slices in registers.
pub fn class_fits(setup: Setup, classes: &[[u8; 16]; 8], letter: u16, x: u8, y: u8) -> bool
    ensures { result ≡ class_fits setup classes.now letter x y }
{
    if !setup.up {
        return in_class(classes, letter, y);
    }
    (!setup.low || y == x) && in_class(classes, letter, x)
}

// A sum with an arc's penalty added, if it stays within the ceiling.
pub fn add(ceiling: u32, sum: u32, penalty: u16) -> Option<u32>
    requires { sum ≤ most_ceiling }
    ensures { result ≡ count_of (summed ceiling sum penalty) }
{
    let lifted = sum + u32::from(penalty);
    if lifted <= ceiling {
        Some(lifted)
    } else {
        None
    }
}

// A side's word is read to its end, if it is read.
pub fn is_done(read: bool, word: &[u8], n: u32) -> bool
    ensures { result ≡ side_done read word.now n }
{
    if !read {
        return true;
    }
    n as usize == word.len()
}

impl Setting<'_> {
    // A frame's path accepts. The terminal states are searched only where every given word is read to its end.
    pub fn accepts(self, state: u16, passed: Passed) -> bool
        ensures { result ≡ (member state self.entry.terminals.now && done_by self.entry.setup self.entry.upper.now self.entry.lower.now (passed_in passed)) }
    {
        if !is_done(self.setup.up, self.upper, passed.up) {
            return false;
        }
        if !is_done(self.setup.low, self.lower, passed.low) {
            return false;
        }
        is_member(self.terminals, state)
    }
}

impl Setup {
    // How many letters of the output were written: what was passed on the side that is not read.
    pub fn written(self, passed: Passed) -> u32
        requires { (self.up || self.low) ≡ true }
        ensures { result ≡ written_of self (passed_in passed) }
    {
        if !self.up {
            passed.up
        } else if !self.low {
            passed.low
        } else {
            0
        }
    }
}
