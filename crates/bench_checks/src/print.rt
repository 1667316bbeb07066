// Output that several kinds of cases have.
use std::io;
use std::io::Write;

pub fn no_such_case<W: Write>(out: &mut W) -> io::Result<()> {
    writeln!(out, "no such case")
}

// Each byte as `print` prints it, and the line's end.
pub fn bytes<W: Write, F: FnMut(&mut W, u8) -> io::Result<()>>(
    out: &mut W,
    bytes: &[u8],
    mut print: F,
) -> io::Result<()>
    requires { F.IsAlwaysCallable print }
{
    for byte in bytes {
        print(out, *byte)?;
    }
    writeln!(out)
}
