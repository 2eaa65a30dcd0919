// The text of the list: bytes in hexadecimal.
ghost use Rattle.std.specs.Prelude.{◌<◌, IfSome};

use arrayvec::ArrayVec;

// Room for the bytes of a case.
pub type Bytes = ArrayVec<u8, 4096>;

// The library's `from_str_radix` takes upper case and a plus sign too, which no list has.
fn digit(c: u8) -> Option<u8>
    ensures { IfSome result (λ n. n < 16) }
{
    match c {
        b'0'..=b'9' => Some(c - b'0'),
        b'a'..=b'f' => Some(c - b'a' + 10),
        _ => None,
    }
}

// The byte of two digits, the higher first.
fn byte(high: u8, low: u8) -> Option<u8> {
    let h = digit(high)?;
    let l = digit(low)?;
    Some(16 * h + l)
}

// Bytes of two digits each, to the room, which is lent so that its 4,096 bytes needn't be filled or moved for each case; spaces between bytes say nothing.
// None where the text spells anything else, or more bytes than there is room for.
pub fn read_hex(text: &[u8], bytes: &mut Bytes) -> Option<()> {
    bytes.clear();
    for word in text.split(|b| *b == b' ') {
        let (pairs, rest) = word.as_chunks::<2>();
        if !rest.is_empty() {
            return None;
        }
        for pair in pairs {
            bytes.try_push(byte(pair[0], pair[1])?).ok()?;
        }
    }
    Some(())
}
