// Bytes written in hexadecimal.
ghost use Rattle.std.specs.Prelude.{◌<◌, ◌≤◌, vec_len, IfSome};

use crate::cases::ROOM;
use std::alloc::AllocError;

fn digit(c: u8) -> Option<u8>
    ensures { IfSome result (λ value. value < 16) }
{
    match c {
        b'0'..=b'9' => Some(c - b'0'),
        b'a'..=b'f' => Some(c - b'a' + 10),
        _ => None,
    }
}

// The byte that two digits make.
fn pair(high: u8, low: u8) -> Option<u8> {
    Some(digit(high)? * 16 + digit(low)?)
}

// Reads pairs of digits, as many as there is room for, and passes over everything else.
pub fn read(text: &[u8], bytes: &mut Vec<u8>) -> Result<(), AllocError>
    ensures { vec_len bytes.new ≤ 65536 }
{
    bytes.clear();
    let mut left = text;
    while let [high, low, after @ ..] = left {
        match pair(*high, *low) {
            None => left = &left[1..],
            Some(_) if ROOM <= bytes.len() => return Ok(()),
            Some(byte) => {
                bytes.push(byte)?;
                left = after;
            }
        }
    }
    Ok(())
}
