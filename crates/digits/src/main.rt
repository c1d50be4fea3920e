// Puts each of the 256 bytes to `hexadecimal::value`, and prints a line for each that can be held against an ASCII chart: the byte's number, its
// character where it has one that shows, and the value of the digit, or a dash where it is none. A write that fails is passed over.
#![tactic(auto)]

use hexadecimal::value;

// A byte in three columns, its character in five, blank where none shows, and its value in three.
fn line(rt: &impl Print, c: u8) {
    let _ = print!(rt; "{c:3}");
    let _ = match c {
        b' '..=b'~' => print!(rt; " '{}' ", char::from(c)),
        _ => print!(rt; "     "),
    };
    let _ = match value(c) {
        Some(v) => println!(rt; "{v:3}"),
        None => println!(rt; "  -"),
    };
}

fn main(rt: HostRuntime) {
    for c in 0..=u8::MAX {
        line(&rt, c);
    }
}
