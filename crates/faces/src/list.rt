// Readings lent one after another, each as its length (two bytes, high first) and its letters.
ghost use Rattle.std.specs.Prelude.{◌≡◌, length};
ghost use Rattle.std.specs.Iterator.{at_most};
ghost use Rattle.faces.specs.Lent.{every, is_letter, list_holds, NextReading};

// How many readings a sheet has room for.
const MOST_READINGS: usize = 1000;

// The readings that bytes lend; none is left at the end, and before a reading that is cut short.
#[derive(Drop)]
pub struct Readings<'a>(pub &'a [u8]);

impl<'a> Iterator for Readings<'a> {
    type Item = &'a [u8];

    ghost next_gives = { NextReading (λ s. s.0.now) };

    ghost remaining = { λ s. at_most (length s.0.now) };

    fn next(&mut self) -> Option<&'a [u8]> {
        let [high, low, rest @ ..] = self.0 else {
            return None;
        };
        let letters = u16::from_be_bytes([*high, *low]);
        let (reading, after) = rest.split_at_checked(usize::from(letters))?;
        self.0 = after;
        Some(reading)
    }
}

fn is_letter(letter: u8) -> bool
    ensures { result ≡ is_letter letter }
{
    matches!(letter, 1..=63)
}

// Whether all letters are 1 to 63. Every letter is looked at, so that the compiler can take many at a time.
fn letters_hold(letters: &[u8]) -> bool
    ensures { result ≡ every is_letter letters.now }
{
    let mut hold = true;
    for letter in letters {
        hold &= is_letter(*letter);
    }
    hold
}

// Whether at most 1,000 readings are lent, none cut short, of letters 1 to 63.
pub fn list_holds(bytes: &[u8]) -> bool
    ensures { result ≡ list_holds bytes.now }
{
    let mut readings = Readings(bytes);
    let mut count = 0;
    while let Some(reading) = readings.next() {
        if count == MOST_READINGS || !letters_hold(reading) {
            return false;
        }
        count += 1;
    }
    readings.0.is_empty()
}
