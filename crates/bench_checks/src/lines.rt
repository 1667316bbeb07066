// Cases of line.
use crate::{flat, print};
use layout::record::Token;
use std::io;
use std::io::Write;

// A record as the cases of encode have it, its first byte the room there is, and then a stage and a depth.
pub fn listed<W: Write>(out: &mut W, bytes: &[u8]) -> io::Result<()> {
    if bytes.len() != 32 {
        return print::no_such_case(out);
    }
    listed_in(out, bytes[0], flat::token(bytes), bytes[30], bytes[31])
}

// Lists a record into a buffer of some length, 128 at most.
fn listed_in<W: Write>(out: &mut W, room: u8, t: Token, stage: u8, depth: u8) -> io::Result<()> {
    let mut buffer = [b'#'; 128];
    let n = room as usize % 129;
    listed_into(out, t, stage, depth, &mut buffer[..n])
}

// Prints the whole buffer, so that what line must leave alone shows. A line that fills it has its own end.
fn listed_into<W: Write>(
    out: &mut W,
    t: Token,
    stage: u8,
    depth: u8,
    buffer: &mut [u8],
) -> io::Result<()> {
    match listing::line(t, stage, depth, buffer) {
        Err(r) => {
            writeln!(out, "{r}")?;
            out.write_all(buffer)?;
            writeln!(out)
        }
        Ok(n) => {
            writeln!(out, "length {n}")?;
            out.write_all(buffer)?;
            if n != buffer.len() {
                writeln!(out)?;
            }
            Ok(())
        }
    }
}
