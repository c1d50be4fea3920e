// The output of a path, from the frames.
ghost use Rattle.std.specs.Prelude.{◌≡◌, ◌++◌, ◌≤◌, length, drop};
ghost use Rattle.table_format.specs.Cells.{arc_said};
ghost use Rattle.machine.specs.Transducer.{next_letter};
ghost use Rattle.engine_frames.specs.Sides.{passed_in};
ghost use Rattle.engine_frames.specs.Output.{written_letter, letters_up_to, Tried, letters_by};

use crate::{Passed, Setting, cells, sides};
use table_format::{Arc, FIRST_CLASS};

impl Setting<'_> {
    // The next letter of a word that is read: of the upper one, if it is.
    fn next_letter(self, passed: Passed) -> u8
        ensures { result ≡ next_letter self.entry.setup.up self.entry.upper.now self.entry.lower.now (passed_in passed) }
    {
        if self.setup.up {
            sides::letter_after(self.upper, passed.up)
        } else {
            sides::letter_after(self.lower, passed.low)
        }
    }

    // The letter that an arc of a path writes, after what was passed: its own, or where it has a class the letter read.
    fn written_letter(self, arc: Arc, passed: Passed) -> u16
        ensures { result ≡ written_letter self.entry.setup self.entry.upper.now self.entry.lower.now (arc_said arc) (passed_in passed) }
    {
        let own = if self.setup.up { arc.lower } else { arc.upper };
        if own < FIRST_CLASS {
            own
        } else {
            u16::from(self.next_letter(passed))
        }
    }

    // The letters that each frame's last tried arc writes, bottom up, into the buffer.
    fn gather(self, stack: &[u32], depth: usize, output: &mut [u8])
        requires tried { Tried self.setup self.arcs.now self.upper.now self.lower.now stack.now depth }
        requires depth_in_bounds { length (letters_up_to self.setup self.arcs.now self.upper.now self.lower.now stack.now depth) ≤ length output.old }
        ensures { output.new ≡ letters_up_to self.entry.setup self.entry.arcs.now self.entry.upper.now self.entry.lower.now stack.now depth ++ drop (length (letters_up_to self.entry.setup self.entry.arcs.now self.entry.upper.now self.entry.lower.now stack.now depth)) output.old }
    {
        let mut k = 0;
        for i in 0..depth {
            let f = cells::look(stack, i);
            let arc = table_format::arc_at(self.arcs, f.next as usize - 1);
            let letter = self.written_letter(arc, f.passed);
            if letter != 0 {
                output[k] = letter as u8;
                k += 1;
            }
        }
    }

    // The output of a path, of that many letters, from the frames below its last one. Where it has none, as always in recognition, no frame
    // is looked at.
    pub fn write(self, stack: &[u32], depth: usize, count: u32, output: &mut [u8])
        requires tried { Tried self.setup self.arcs.now self.upper.now self.lower.now stack.now depth }
        requires count_value { count ≡ length (letters_by self.setup self.arcs.now self.upper.now self.lower.now stack.now depth) }
        requires count_in_bounds { count ≤ length output.old }
        ensures { output.new ≡ letters_by self.entry.setup self.entry.arcs.now self.entry.upper.now self.entry.lower.now stack.now depth ++ drop (length (letters_by self.entry.setup self.entry.arcs.now self.entry.upper.now self.entry.lower.now stack.now depth)) output.old }
    {
        if count != 0 {
            self.gather(stack, depth, output);
        }
    }
}
