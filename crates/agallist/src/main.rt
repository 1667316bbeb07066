// Reads an edition digit and a program's bytes from standard input, and prints the listing or the refusal.
#![tactic(auto)]

ghost use Rattle.std.specs.Prelude.{◌≤◌, length, OnOk, IfSome};
ghost use Rattle.std.specs.Io.KnownBytes.{Appends};
ghost use Rattle.report.specs.Text.{text_of};

use std::alloc::Global;
use std::io;
use std::io::{Read, Write};

fn main(rt: HostRuntime) -> io::Result<()> {
    list(rt.alloc(), rt.reader(), &mut io::writer(&rt))
}

// From a reader to a writer: the text of all that the reader has left.
fn list<R: Read + Drop, W: Write>(alloc: Global, input: R, out: &mut W) -> io::Result<()>
    ensures { OnOk result (IfSome (R.remaining input) (λ bytes. Appends (W.contents out.old) (W.contents out.new) (text_of bytes))) }
{
    // One byte more than the limit, so that a longer input is known as such.
    let mut bytes = Vec::new(alloc);
    input.take(49161).read_to_end(&mut bytes)?;
    let mut buffer = vec![in alloc; 0u8; 262178]?;
    put(out, &bytes, &mut buffer)
}

// The text of an input, by way of a buffer that is room for any text.
fn put<W: Write>(out: &mut W, input: &[u8], buffer: &mut [u8]) -> io::Result<()>
    requires { 262178 ≤ length buffer.old }
    ensures { OnOk result (Appends (W.contents out.old) (W.contents out.new) (text_of input.now)) }
{
    match report::report(input, buffer) {
        Ok(length) => out.write_all(&buffer[..length]),
        Err(_) => unreachable!(),
    }
}
