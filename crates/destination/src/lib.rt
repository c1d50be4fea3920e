// "24. A destination for a loaded table or for text is shorter than what is to be written to it. A longer one is untouched beyond that."
#![tactic(auto)]

ghost use Rattle.std.specs.Prelude.{◌≡◌, ◌+◌, ◌≤◌, length};
ghost use Rattle.std.proofs.lemmas.List.Edits.{sets};
ghost use Rattle.destination.specs.Stored.{stored_answer, stored_cells};

use refusal::{Refusal, StateCause};

// Items from a place of a destination on that has room for them.
pub fn put<T: Copy>(destination: &mut [T], at: usize, items: &[T])
    requires { at + length items.now ≤ length destination.old }
    ensures { destination.new ≡ sets destination.old at items.now }
{
    destination[at..at + items.len()].copy_from_slice(items);
}

// Items to the front of a destination and how many they are, or 24.
pub fn store<T: Copy>(items: &[T], destination: &mut [T]) -> Result<usize, Refusal>
    ensures answer { result ≡ stored_answer items.now destination.old }
    ensures left { destination.new ≡ stored_cells items.now destination.old }
{
    if destination.len() < items.len() {
        return Err(Refusal::State(StateCause::DestinationShort));
    }
    put(destination, 0, items);
    Ok(items.len())
}
