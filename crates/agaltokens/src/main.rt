// Reads an edition digit and a program's bytes from standard input, as agallist does, and prints what a token reader over the program
// answers: to its opening, and to each read. The reader needs no edition and does not judge the program.
#![tactic(auto)]

use std::io;
use std::io::{BufWriter, Read, Write};

fn main(rt: HostRuntime) -> io::Result<()> {
    let alloc = rt.alloc();
    // One byte more than the limit, so that a longer input is known as such.
    let mut input = Vec::new(alloc);
    rt.reader().take(49161).read_to_end(&mut input)?;
    let mut out = BufWriter::new(alloc, io::writer(&rt))?;
    answer(&mut out, &input)?;
    out.flush()
}

// The tests of agallist's first two lines; what check would refuse is read here too.
fn answer<W: Write>(out: &mut W, input: &[u8]) -> io::Result<()> {
    if 49160 < input.len() {
        return out.write_all(b"input too long\n");
    }
    match input.split_first() {
        None => out.write_all(b"no edition\n"),
        Some((_, program)) => read_all(out, program),
    }
}

// Two reads more than there are tokens: the end stays the end.
fn read_all<W: Write>(out: &mut W, program: &[u8]) -> io::Result<()> {
    let opened = reader::open(program);
    match opened.answer {
        Ok(()) => writeln!(out, "open")?,
        Err(r) => writeln!(out, "{r}")?,
    }
    let mut reader = opened.reader;
    for _ in 0..program.len() / 24 + 2 {
        let place = reader.place;
        let read = reader::read(reader);
        match read.answer {
            Ok(t) => token(out, place, t.opcode)?,
            Err(r) => writeln!(out, "{r}")?,
        }
        reader = read.reader;
    }
    Ok(())
}

// The opcode is printed in hexadecimal, as the format lists it.
fn token<W: Write>(out: &mut W, place: usize, opcode: u32) -> io::Result<()> {
    writeln!(out, "token {place} opcode {opcode:02x}")
}
