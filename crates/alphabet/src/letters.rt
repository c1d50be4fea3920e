// Letters 1 to 61 and their characters.
ghost use Rattle.std.specs.Prelude.{◌≡◌, ◌≤◌, ◌<◌, length, MatchOption};
ghost use Rattle.alphabet.specs.Letters.{place_in, letter_of};

// How many letters have a character.
pub const LETTERS: usize = 61;

// The small letters.
const SMALLS: [char; LETTERS] = [
    'a', 'b', 'c', 'd', 'e', 'f', 'g', 'h', 'i', 'j', 'k', 'l', 'm', 'n', 'o', 'p', 'q', 'r', 's',
    't', 'u', 'v', 'w', 'x', 'y', 'z', 'ä', 'ö', 'ü', 'ß', 'à', 'á', 'â', 'ã', 'å', 'æ', 'ç', 'è',
    'é', 'ê', 'ë', 'ì', 'í', 'î', 'ï', 'ð', 'ñ', 'ò', 'ó', 'ô', 'õ', 'ø', 'ù', 'ú', 'û', 'ý', 'þ',
    'ÿ', 'œ', 'š', 'ž',
];

// And their capitals.
const CAPITALS: [char; LETTERS] = [
    'A', 'B', 'C', 'D', 'E', 'F', 'G', 'H', 'I', 'J', 'K', 'L', 'M', 'N', 'O', 'P', 'Q', 'R', 'S',
    'T', 'U', 'V', 'W', 'X', 'Y', 'Z', 'Ä', 'Ö', 'Ü', 'ẞ', 'À', 'Á', 'Â', 'Ã', 'Å', 'Æ', 'Ç', 'È',
    'É', 'Ê', 'Ë', 'Ì', 'Í', 'Î', 'Ï', 'Ð', 'Ñ', 'Ò', 'Ó', 'Ô', 'Õ', 'Ø', 'Ù', 'Ú', 'Û', 'Ý', 'Þ',
    'Ÿ', 'Œ', 'Š', 'Ž',
];

// The first place in a row of the character with a code point.
fn place(row: &[char], code: u32) -> Option<usize>
    ensures { MatchOption result (length row.now ≤ place_in row.now code) (λ k. (k < length row.now) × (k ≡ place_in row.now code)) }
{
    row.iter().position(|c| u32::from(*c) == code)
}

// The letter of a code point, small or capital; none where it is no letter's.
pub fn letter_of(code: u32) -> Option<u8>
    ensures { MatchOption result (letter_of code ≡ 0) (λ letter. (1 ≤ letter) × (letter ≡ letter_of code)) }
{
    if let Some(k) = place(&SMALLS, code) {
        return Some(1 + k as u8);
    }
    let k = place(&CAPITALS, code)?;
    Some(1 + k as u8)
}
