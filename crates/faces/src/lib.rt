// What is looked at before a sheet is written, for refusal 33: the faces of the letters, and (in `list`) the readings that are lent.
#![tactic(auto)]

pub mod list;

ghost use Rattle.std.specs.Prelude.{◌≡◌};
ghost use Rattle.faces.specs.Faces.{faces_hold};

// How many letters have a face.
pub const FACES: usize = 63;

// Whether there are 63 faces, each printable, 33 to 126, and none repeated. Those seen are marked in a row: to look for each among the others takes longer.
pub fn faces_hold(faces: &[u8]) -> bool
    ensures { result ≡ faces_hold faces.now }
{
    if faces.len() != FACES {
        return false;
    }
    let mut seen = [false; 127];
    for face in faces {
        let face = usize::from(*face);
        if !(33..=126).contains(&face) || seen[face] {
            return false;
        }
        seen[face] = true;
    }
    true
}
