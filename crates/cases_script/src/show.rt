// What a line of the output is made of. What follows the name begins with a blank or a comma. A write that fails is passed over.

pub fn say(rt: &impl Print, text: &[u8]) {
    let _ = rt.write_all(text);
}

// A call that left the rest of what it was lent as it was, or did not.
pub fn touched(rt: &impl Print, kept: bool) {
    if !kept {
        let _ = print!(rt; ", touched");
    }
}

pub fn refused(rt: &impl Print, refusal: refusal::Refusal) {
    let _ = print!(rt; " refused {}", refusal.number());
}

// The cells from one place of a list to another, those that there are.
pub fn cells(rt: &impl Print, list: &[u16], from: usize, to: usize) {
    for x in list.iter().take(to).skip(from) {
        let _ = print!(rt; " {x}");
    }
}

// A letter as its sign, with a for 1 and a plus after z, or as two digits after a blank.
fn letter(rt: &impl Print, x: u8, plain: bool) {
    if plain {
        let sign = if x <= 26 { b'a' - 1 + x } else { b'+' };
        say(rt, &[sign]);
    } else {
        let [high, low] = hexadecimal::encode(x);
        say(rt, &[b' ', high, low]);
    }
}

// The letters of a reading.
pub fn letters(rt: &impl Print, list: &[u8], plain: bool) {
    for x in list {
        letter(rt, *x, plain);
    }
}

// Whether a list holds a mark from a place on.
pub fn is_marked<T: PartialEq>(list: &[T], from: usize, mark: &T) -> bool {
    list.iter().skip(from).all(|x| x == mark)
}
