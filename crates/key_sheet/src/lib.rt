// The key of a word: the answer sheet of its readings in synthesis.
#![tactic(auto)]

ghost use Rattle.std.specs.Prelude.{◌≡◌, ◌++◌, ◌+◌, ◌≤◌, ◌<◌, length};
ghost use Rattle.std.proofs.lemmas.List.Edits.{sets};
ghost use Rattle.table_format.specs.Text.{number};
ghost use Rattle.destination.specs.Told.{stored_told};
ghost use Rattle.faces.specs.Lent.{most_readings};
ghost use Rattle.session_calls.specs.Calls.{most_calls};
ghost use Rattle.key_sheet.specs.Key.{first_stack, first_output, key_from};
ghost use Rattle.key_sheet.specs.Gathered.{list_bytes, GatheredIs};
ghost use Rattle.key_sheet.specs.Calls.{key_answer, key_sheet};

use destination::put;
use faces::FACES;
use machine::{Run, StartAnswer};
use refusal::Refusal;
use session_calls::{CallResult, MOST_CALLS, make_calls};

// The task by which a word's readings are written.
const SYNTHESIS: u32 = 2;

// Readings of a key.
const MOST_READINGS: usize = 1000;

// Frames that are never too short for a word of 64 letters over 256 states, and their cells.
const STACK_FRAMES: usize = 16640;

const STACK_CELLS: usize = STACK_FRAMES * machine::FRAME_WIDTH;

// Letters that are enough for a word of 64 with a cut after each but the last.
const OUTPUT_LETTERS: usize = 127;

// Bytes of 1,000 readings, each with its length.
const LIST_BYTES: usize = MOST_READINGS * (2 + OUTPUT_LETTERS);

// The readings of a key, in so many bytes of the list, and whether the run ended.
#[derive(Clone, Copy)]
struct Readings {
    bytes: usize,
    ended: bool,
}

// A reading, as its length and its letters, behind those that are there; where it ends.
fn append(list: &mut [u8], at: usize, letters: &[u8]) -> usize
    requires letters_len_bound { length letters.now < 65536 }
    requires letters_in_bounds { at + 2 + length letters.now ≤ length list.old }
    ensures { (result ≡ at + 2 + length letters.now)
        × (list.new ≡ sets list.old at (number (length letters.now) ++ letters.now)) }
{
    put(list, at, &(letters.len() as u16).to_be_bytes());
    put(list, at + 2, letters);
    at + 2 + letters.len()
}

// The readings of a run, to the front of the list, or a call's refusal.
fn gather(table: &[u16], word: &[u8], first: Run, list: &mut [u8]) -> Result<Readings, Refusal>
    requires { list_bytes ≤ length list.old }
    ensures { GatheredIs (key_from table.now word.now most_readings most_calls first first_stack first_output) result list.new }
{
    let mut stack = [0u32; STACK_CELLS];
    let mut output = [0u8; OUTPUT_LETTERS];
    let mut run = first;
    let mut calls = MOST_CALLS;
    let mut bytes = 0;
    for _read in 0..MOST_READINGS {
        match make_calls(table, word, &[], run, calls, &mut stack, &mut output)? {
            CallResult::Reading {
                length,
                run: next,
                calls: more,
            } => {
                bytes = append(list, bytes, &output[..length as usize]);
                run = next;
                calls = more;
            }
            CallResult::Ended => return Ok(Readings { bytes, ended: true }),
            CallResult::Spent => return Ok(Readings {
                bytes,
                ended: false,
            }),
        }
    }
    Ok(Readings {
        bytes,
        ended: false,
    })
}

// The sheet of a word's key, over a loaded table: the start's and the calls' refusals, then 33 and 24.
pub fn write(
    table: &[u16],
    word: &[u8],
    faces: &[u8; FACES],
    sheet: &mut [u8],
) -> Result<usize, Refusal>
    ensures { (stored_told result ≡ stored_told (key_answer table.now word.now faces.now sheet.old))
        × (sheet.new ≡ key_sheet table.now word.now faces.now sheet.old) }
{
    let started = engine_start::start(table, SYNTHESIS, word, &[], machine::MOST_CEILING);
    if let StartAnswer::Refused(refusal) = started.answer {
        return Err(refusal);
    }
    let mut list = [0u8; LIST_BYTES];
    let Readings { bytes, ended } = gather(table, word, started.run, &mut list)?;
    sheet::writer::write(&list[..bytes], faces, ended, sheet)
}
