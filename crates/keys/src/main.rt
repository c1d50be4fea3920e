// Keys for teachers: a list of words in a file, the words of an exam on standard input, and for each of these its answer sheet on standard output.
//
//     keys LIST < WORDS
//
// Both texts have a word a line. What cannot be used is told on standard error, and its last line counts words, readings and refused words; it is
// another line only where the list, the input or the output failed.
#![tactic(auto)]

mod list;
mod print;
mod tell;

ghost use Rattle.std.specs.Prelude.{◌≡◌, length};
ghost use Rattle.input.specs.Read.{Within};

use std::env::{Env, FillError};
use std::fmt::Display;
use std::rt::Files;
use std::{fs, io};
use table_format::MOST_CELLS;

// The most bytes of the list's file, and of the exam's words.
pub const MOST_INPUT: usize = 65536;

// Room for either of them, and for one more byte, which tells that there is too much.
fn text_room() -> [u8; MOST_INPUT + 1]
    ensures { 65537 ≡ length result }
{
    [0; MOST_INPUT + 1]
}

// The list's file, read into the room for it.
fn read_file<R: Files>(rt: &R, path: &str, room: &mut [u8]) -> io::Result<usize>
    ensures { Within result (length room.new) }
{
    let mut file = fs::open(rt, path)?;
    input::read_all(&mut file, room)
}

// That the list cannot be read, and why.
fn tell_unread(rt: &impl Eprint, path: &str, why: impl Display + Drop) {
    let _ = eprintln!(rt; "keys: the list cannot be read: {path}: {why}");
}

// The words for an error of the system, without the number that stands behind them.
fn words(text: &str) -> &str {
    match text.split_once(" (os error ") {
        Some((words, _)) => words,
        None => text,
    }
}

// That the list cannot be read, in the system's words. Where there is no memory for them, their number stays.
fn tell_failure<R: Alloc + Eprint>(rt: &R, path: &str, error: io::Error) {
    match error.to_string(rt.alloc()) {
        Ok(text) => tell_unread(rt, path, words(text.as_str())),
        Err(_) => tell_unread(rt, path, error),
    }
}

// The table of the list in a file. Whether there is one; what is wrong is told.
fn read_list(rt: &HostRuntime, path: &str, table: &mut [u16; MOST_CELLS]) -> bool {
    let mut text = text_room();
    match read_file(rt, path, &mut text) {
        Ok(count) => list::load(&rt.stderr(), path.as_bytes(), &text[..count], table),
        Err(error) => {
            tell_failure(rt, path, error);
            false
        }
    }
}

// The keys of the words on standard input. What is wrong is told.
fn print_all(rt: &HostRuntime, table: &[u16; MOST_CELLS]) {
    let mut text = text_room();
    let Ok(count) = input::read_all(&mut rt.stdin(), &mut text) else {
        let _ = rt.eprintln("keys: standard input cannot be read");
        return;
    };
    if MOST_INPUT < count {
        let _ = rt.eprintln("keys: standard input has over 65,536 bytes");
        return;
    }
    print::keys(&rt.stdout(), &rt.stderr(), table, &text[..count]);
}

// Whether the program was given so many arguments or more, its own name among them.
fn has_argument(rt: &impl Env, at: usize) -> bool {
    !matches!(rt.arg(at, &mut [0]), Err(FillError::NotPresent))
}

fn main(rt: HostRuntime) {
    if !has_argument(&rt, 1) || has_argument(&rt, 2) {
        let _ = rt.eprintln("keys: one file is to be named, the list's: keys LIST < WORDS");
        return;
    }
    let mut path = [0u8; 4096];
    let Ok(length) = rt.arg(1, &mut path) else {
        let _ = rt.eprintln("keys: the list cannot be read: its name is too long");
        return;
    };
    let Ok(path) = str::from_utf8(&path[..length]) else {
        let _ = rt.eprintln("keys: the list cannot be read: its name is not UTF-8");
        return;
    };
    let mut table = [0u16; MOST_CELLS];
    if read_list(&rt, path, &mut table) {
        print_all(&rt, &table);
    }
}
