// The text that agallist prints, into a lent buffer.
ghost use Rattle.std.specs.Prelude.{length};
ghost use Rattle.listing.specs.First.{first_line};
ghost use Rattle.listing.specs.computed.Writers.{first_most};
ghost use Rattle.report.specs.Report.{Reports};
ghost use Rattle.report.specs.computed.Writers.{text_in, HasRoom, Measured, Fits, Puts};

use crate::opening::Text;
use crate::tokens;
use bytecode::answers::Refusal;
use listing::first::FirstLine;

// From an edition digit and a program's bytes. A buffer that is too short for the whole text keeps every byte.
pub fn report(input: &[u8], out: &mut [u8]) -> Result<usize, Refusal>
    ensures { Reports input.now out.old out.new result }
{
    let text = Text::of(input);
    if !text.fits(out.len()) {
        return Err(bytecode::refusal(23, 0, 0));
    }
    Ok(text.put(out))
}

impl<'a> Text<'a> {
    // Whether so many bytes are room for the text. Its length is known once it is written, so it is measured first, but not where there is
    // room for any text: for a first line, and 2048 token lines.
    fn fits(self, room: usize) -> bool
        ensures { Fits (text_in self.entry.first self.entry.bytes.now) room result }
    {
        room >= 262178 || self.length() <= room
    }

    fn length(self) -> usize
        ensures { Measured (text_in self.entry.first self.entry.bytes.now) 262178 result }
    {
        let n = first_length(self.first);
        match self.first {
            FirstLine::Accepted(heading) => n + tokens::tokens_length(heading.stage, self.bytes),
            _ => n,
        }
    }

    // The first line, and the token lines of a program that is accepted.
    fn put(self, out: &mut [u8]) -> usize
        requires { HasRoom (text_in self.first self.bytes.now) 262178 0 (length out.old) }
        ensures { Puts (text_in self.entry.first self.entry.bytes.now) 262178 0 out.old out.new result }
    {
        let p = put_first(out, self.first);
        match self.first {
            FirstLine::Accepted(heading) => tokens::put_tokens(out, p, heading.stage, self.bytes),
            _ => p,
        }
    }
}

fn first_length(first: FirstLine) -> usize
    ensures { Measured (first_line first) (first_most first) result }
{
    let mut line = [0u8; 49];
    put_first(&mut line, first)
}

// That there is room is asked of each text by itself, since each has its own length.
fn put_first(out: &mut [u8], first: FirstLine) -> usize
    requires { HasRoom (first_line first) (first_most first) 0 (length out.old) }
    ensures { Puts (first_line first) (first_most first) 0 out.old out.new result }
{
    listing::first_line(first, out).unwrap()
}
