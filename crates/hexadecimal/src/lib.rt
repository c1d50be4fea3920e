// Hexadecimal digits, upper case only, as one character each and as two for a byte.
#![tactic(auto)]

ghost use Rattle.std.specs.Prelude.{◌≡◌};
ghost use Rattle.hexadecimal.specs.Hex.{value_of, decoded, digit_of, encoded};

// The value of a digit: a case for each, by its number in ASCII, to be held against a chart. The specification asks for sixteen cases.
#[tactic(auto, unfolding(crate::specs::Hex::value_of))]
pub fn value(c: u8) -> Option<u8>
    ensures { result ≡ value_of c }
{
    match c {
        48 => Some(0), // '0'
        49 => Some(1), // '1'
        50 => Some(2), // '2'
        51 => Some(3), // '3'
        52 => Some(4), // '4'
        53 => Some(5), // '5'
        54 => Some(6), // '6'
        55 => Some(7), // '7'
        56 => Some(8), // '8'
        57 => Some(9), // '9'
        65 => Some(10), // 'A'
        66 => Some(11), // 'B'
        67 => Some(12), // 'C'
        68 => Some(13), // 'D'
        69 => Some(14), // 'E'
        70 => Some(15), // 'F'
        _ => None,
    }
}

// The byte of two digits, where both are digits.
#[tactic(auto, using(crate::proofs::Hex::value_small, crate::proofs::Hex::decoded_of), unfolding(crate::specs::Hex::decoded, crate::specs::Hex::joined))]
pub fn decode(high: u8, low: u8) -> Option<u8>
    ensures { result ≡ decoded high low }
{
    let h = value(high)?;
    let l = value(low)?;
    Some(h * 16 + l)
}

// The digit of the lowest four bits.
#[tactic(auto, unfolding(crate::specs::Hex::digit_of))]
pub fn digit(v: u8) -> u8
    ensures { result ≡ digit_of v }
{
    let n = v % 16;
    if n < 10 { b'0' + n } else { b'A' + (n - 10) }
}

// Both digits of a byte, the high one first.
#[tactic(auto, unfolding(crate::specs::Hex::encoded))]
pub fn encode(b: u8) -> [u8; 2]
    ensures { result ≡ encoded b }
{
    [digit(b / 16), digit(b)]
}
