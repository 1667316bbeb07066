// Runs cases through the library and prints what it answers. The cases are read from standard input, a line each: a letter and bytes in
// hexadecimal. A line that begins with '#' is printed as it stands. The gate compares the whole output with the file stdout.
#![tactic(auto)]

mod cases;
mod codec;
mod flat;
mod hex;
mod lines;
mod print;
mod programs;

use std::io;
use std::io::{BufWriter, Read, Write};

fn main(rt: HostRuntime) -> io::Result<()> {
    let alloc = rt.alloc();
    let mut text = Vec::new(alloc);
    rt.reader().take(524288).read_to_end(&mut text)?;
    let mut out = BufWriter::new(alloc, io::writer(&rt))?;
    cases::run(&mut out, &text, Vec::with_capacity(alloc, cases::ROOM)?)?;
    out.flush()
}
