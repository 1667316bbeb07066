// The first line that agallist prints. It is the only one, but for a program that is accepted.
ghost use Rattle.std.specs.Prelude.{◌++◌, ◌+◌, ◌≤◌, length};
ghost use Rattle.listing.specs.Decimal.{decimal};
ghost use Rattle.listing.specs.First.{heading_line, refusal_line, first_line};
ghost use Rattle.listing.specs.computed.Writers.{first_most, Appends, RoomFor, Writes};
ghost use Rattle.listing.specs.Printing.{Prints};

use crate::printing;
use crate::stage::Stage;
use crate::text::Writer;
use bytecode::answers::Refusal;

// An accepted program. Any stage but 0 is written as a fragment program's (`heading_line`), so it is a number.
#[derive(Clone, Copy)]
pub struct Heading {
    pub edition: u16,
    pub stage: u8,
    pub tokens: u16,
}

// The lines that document 01 lists. No Result: all four are printed alike (`first_line`).
#[derive(Clone, Copy)]
pub enum FirstLine {
    Accepted(Heading),
    Refused(Refusal),
    NoEdition,
    InputTooLong,
}

pub fn first_line(first: FirstLine, out: &mut [u8]) -> Result<usize, Refusal>
    ensures { Prints (first_line first) out.old out.new result × (length (first_line first) ≤ first_most first) }
{
    // No first line is longer.
    if 49 <= out.len() {
        return Ok(put_first_line(out, first));
    }
    // Its length is known once it is written, so where the buffer may be too short it is written here first.
    let mut whole = [0u8; 49];
    let n = put_first_line(&mut whole, first);
    printing::print(&whole[..n], out)
}

fn put_first_line(out: &mut [u8], first: FirstLine) -> usize
    requires { 49 ≤ length out.old }
    ensures { Appends (first_line first) (first_most first) 0 out.old out.new result }
{
    let mut w = Writer::new(out);
    w.first_line(first);
    w.length()
}

impl Writer<'_> {
    fn first_line(&mut self, first: FirstLine)
        requires { RoomFor 49 self.old }
        ensures { Writes (first_line first) (first_most first) self.old self.new }
    {
        match first {
            FirstLine::Accepted(heading) => self.heading(heading),
            FirstLine::Refused(r) => self.refusal(r),
            FirstLine::NoEdition => self.bytes(b"no edition\n"),
            FirstLine::InputTooLong => self.bytes(b"input too long\n"),
        }
    }

    // `agal 1 vertex 2`
    fn heading(&mut self, heading: Heading)
        requires { RoomFor 34 self.old }
        ensures { Writes (heading_line heading) 34 self.old self.new }
    {
        self.numbered(b"agal ", heading.edition);
        self.byte(b' ');
        self.bytes(Stage::of(heading.stage).name());
        self.numbered(b" ", heading.tokens);
        self.byte(b'\n');
    }

    // `refused 14 at 0 part 1`. Not by Display, for the reason at `Writer`; that both are one text is proved (proofs/RefusalText.antt).
    fn refusal(&mut self, r: Refusal)
        requires { RoomFor 49 self.old }
        ensures { Writes (refusal_line r) 49 self.old self.new }
    {
        self.numbered(b"refused ", u16::from(r.number));
        self.bytes(b" at ");
        // No usize has more than 20 digits.
        self.long(r.token, 20);
        self.numbered(b" part ", u16::from(r.part));
        self.byte(b'\n');
    }

    // A word and a number after it.
    fn numbered(&mut self, word: &[u8], n: u16)
        requires { RoomFor (length word.now + 5) self.old }
        ensures { Writes (word.now ++ decimal n) (length word.now + 5) self.old self.new }
    {
        self.bytes(word);
        self.decimal(n);
    }
}
