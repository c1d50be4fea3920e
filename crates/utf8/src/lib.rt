// UTF-8: the character at the front of bytes.
#![tactic(auto)]

ghost use Rattle.std.specs.Prelude.{◌≡◌, ◌-◌, ◌≤◌, ◌<◌, drop};
ghost use Rattle.utf8.specs.Utf8.{several, character_in};

// The character at the front of bytes, and in how many of them it stands.
#[derive(Clone, Copy, Debug, PartialEq, Eq)]
pub struct Character {
    pub code: char,
    pub size: usize,
}

// A character of so many bytes, which fewer cannot hold: the bits of the first byte, then those of the others.
fn several(text: &[u8], least: u32, size: usize, lead: u8) -> Option<Character>
    requires { (1 ≤ size) × (size ≤ 4) × (lead < 32) }
    ensures { result ≡ several least size lead (size - 1) (drop 1 text.now) }
{
    let mut code = u32::from(lead);
    for k in 1..size {
        let byte @ 128..=191 = *text.get(k)? else {
            return None;
        };
        code = code * 64 + u32::from(byte - 128);
    }
    if code < least {
        return None;
    }
    let code = char::from_u32(code)?;
    Some(Character { code, size })
}

// The character at the front of text.
pub fn decode(text: &[u8]) -> Option<Character>
    ensures { result ≡ character_in text.now }
{
    match *text.first()? {
        lead @ 0..=127 => Some(Character {
            code: char::from(lead),
            size: 1,
        }),
        lead @ 192..=223 => several(text, 128, 2, lead - 192),
        lead @ 224..=239 => several(text, 2048, 3, lead - 224),
        lead @ 240..=247 => several(text, 65536, 4, lead - 240),
        _ => None,
    }
}
