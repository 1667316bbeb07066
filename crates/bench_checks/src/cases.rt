// One case after the other.
use crate::{codec, flat, hex, lines, print, programs};
use std::io;
use std::io::Write;

// How many bytes a case has at most.
pub const ROOM: usize = 65536;

// The bytes of each case in turn are read into `bytes`.
pub fn run<W: Write>(out: &mut W, text: &[u8], mut bytes: Vec<u8>) -> io::Result<()> {
    for line in text.split(|byte| *byte == b'\n') {
        case(out, line, &mut bytes)?;
    }
    Ok(())
}

fn case<W: Write>(out: &mut W, line: &[u8], bytes: &mut Vec<u8>) -> io::Result<()> {
    let Some((letter, digits)) = line.split_first() else {
        return Ok(());
    };
    if *letter == b'#' {
        out.write_all(line)?;
        return writeln!(out);
    }
    hex::read(digits, bytes)?;
    match *letter {
        b'd' => codec::decoded(out, bytes),
        b'e' => encoded(out, bytes),
        b'l' => lines::listed(out, bytes),
        b'c' => programs::checked(out, bytes),
        b'r' => programs::repeated(out, bytes),
        b's' => print::bytes(
            out,
            bytes,
            |out, byte| write!(out, " {}", layout::components(byte)),
        ),
        _ => print::no_such_case(out),
    }
}

fn encoded<W: Write>(out: &mut W, bytes: &[u8]) -> io::Result<()> {
    if bytes.len() != 30 {
        return print::no_such_case(out);
    }
    codec::encoded(out, bytes[0], flat::token(bytes))
}
