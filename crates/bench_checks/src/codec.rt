// Cases of decode, encode and bias.
use crate::print;
use layout::record::{DirectSource, MaskedRegister, Operand, Sampler, Token};
use std::io;
use std::io::Write;

// Decodes bytes and prints the record, and whether it encodes to the same bytes.
pub fn decoded<W: Write>(out: &mut W, bytes: &[u8]) -> io::Result<()> {
    match bytecode::decode(bytes) {
        Err(r) => writeln!(out, "{r}"),
        Ok(t) => {
            record(out, t)?;
            again(out, t, bytes)
        }
    }
}

fn record<W: Write>(out: &mut W, t: Token) -> io::Result<()> {
    write!(out, "opcode {}", t.opcode)?;
    destination(out, t.destination)?;
    operand(out, t.source1)?;
    operand(out, t.source2)
}

fn destination<W: Write>(out: &mut W, d: Option<MaskedRegister>) -> io::Result<()> {
    match d {
        None => write!(out, "; unused"),
        Some(r) => write!(out, "; to {} {} {}", r.number, r.mask, r.kind),
    }
}

fn operand<W: Write>(out: &mut W, o: Operand) -> io::Result<()> {
    match o {
        Operand::Unused => write!(out, "; unused"),
        Operand::Direct(s) => source(out, "direct", s),
        Operand::Indexed(s) => source(out, "indexed", DirectSource::from(s)),
        Operand::Sampler(s) => sampler(out, s),
    }
}

fn source<W: Write>(out: &mut W, name: &str, s: DirectSource) -> io::Result<()> {
    write!(
        out,
        "; {name} {} {} {} {} {} {}",
        s.number, s.offset, s.swizzle, s.kind, s.index_kind, s.component
    )
}

fn sampler<W: Write>(out: &mut W, s: Sampler) -> io::Result<()> {
    write!(
        out,
        "; sampler {} {} {} {} {} {} {} bias {:08x}",
        s.number,
        s.kind,
        s.dimension,
        s.special,
        s.wrap,
        s.mipmap,
        s.filter,
        bias_bits(s)
    )
}

// The float by its bits, so that no two floats print alike.
fn bias_bits(s: Sampler) -> u32 {
    let eighth = bytecode::bias(s);
    f32::to_bits(eighth)
}

// Encodes a record and compares the bytes with those it was decoded from.
fn again<W: Write>(out: &mut W, t: Token, bytes: &[u8]) -> io::Result<()> {
    let mut token = [170u8; 24];
    match bytecode::encode(t, &mut token) {
        Err(r) => writeln!(out, "{r}"),
        Ok(()) => {
            if token.as_slice() == bytes {
                write!(out, "; the same bytes")?;
            }
            writeln!(out)
        }
    }
}

// Encodes a record into a buffer of some length, 40 at most, filled with AA, and prints the buffer.
pub fn encoded<W: Write>(out: &mut W, room: u8, t: Token) -> io::Result<()> {
    let mut buffer = [170u8; 40];
    let n = room as usize % 41;
    encoded_into(out, t, &mut buffer[..n])
}

fn encoded_into<W: Write>(out: &mut W, t: Token, buffer: &mut [u8]) -> io::Result<()> {
    match bytecode::encode(t, buffer) {
        Err(r) => writeln!(out, "{r}")?,
        Ok(()) => writeln!(out, "written")?,
    }
    print::bytes(out, buffer, |out, byte| write!(out, "{byte:02x}"))
}
