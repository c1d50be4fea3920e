// What stands behind a reader, read to its end.
#![tactic(auto)]

ghost use Rattle.std.specs.Prelude.{length};
ghost use Rattle.input.specs.Read.{Within, Reads};

use std::io;
use std::io::Read;

// Everything up to the end, or until there is no room left: how many bytes. Which bytes those are is told where the reader's are known; of
// a file or of standard input they are not, and the count is within the room. Place by place, since a read gives as many bytes as it likes.
pub fn read_all<R: Read>(reader: &mut R, room: &mut [u8]) -> io::Result<usize>
    ensures within { Within result (length room.new) }
    ensures bytes { Reads (R.remaining reader.old) (R.remaining reader.new) result room.new }
{
    let mut at = 0;
    while at < room.len() {
        let more = reader.read(&mut room[at..])?;
        if more == 0 {
            break;
        }
        at += more;
    }
    Ok(at)
}
