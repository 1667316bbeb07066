// Cases of the whole check.
ghost use Rattle.std.specs.Prelude.{◌≤◌, vec_len};

use crate::cases::ROOM;
use crate::print;
use std::alloc::AllocError;
use std::io;
use std::io::Write;

// An edition in four bytes, and a program.
pub fn checked<W: Write>(out: &mut W, bytes: &[u8]) -> io::Result<()> {
    let Some((edition, program)) = bytes.split_first_chunk::<4>() else {
        return print::no_such_case(out);
    };
    match verifier::check(u32::from_le_bytes(*edition), program) {
        Err(r) => writeln!(out, "{r}"),
        Ok(p) => writeln!(out, "accepted {} {}", p.stage, p.tokens),
    }
}

// How often in two bytes, an edition and a program, whose last token is there that many times more: programs at the limits are long.
pub fn repeated<W: Write>(out: &mut W, bytes: &mut Vec<u8>) -> io::Result<()> {
    if bytes.len() < 30 {
        return print::no_such_case(out);
    }
    let times = u16::from_le_bytes([bytes[0], bytes[1]]);
    if ROOM < bytes.len() + 24 * times as usize {
        return print::no_such_case(out);
    }
    repeat_last(bytes, times)?;
    checked(out, &bytes[2..])
}

// The token is copied out and appended whole: `extend_from_within` appends byte by byte.
fn repeat_last(bytes: &mut Vec<u8>, times: u16) -> Result<(), AllocError>
    requires { 24 ≤ vec_len bytes.old }
    ensures { vec_len bytes.old ≤ vec_len bytes.new }
{
    let mut last = [0u8; 24];
    last.copy_from_slice(&bytes[bytes.len() - 24..]);
    for _ in 0..times {
        bytes.extend_from_slice(&last)?;
    }
    Ok(())
}
