// The token lines of a listing.
ghost use Rattle.std.specs.Prelude.{true, ◌≡◌, ◌-◌, ◌*◌, ◌≤◌, length, Ok};
ghost use Rattle.bytecode.specs.Decode.{decode_of};
ghost use Rattle.layout.specs.Opcodes.{flow_of};
ghost use Rattle.listing.specs.Line.{line_of, is_nameable};
ghost use Rattle.layout.specs.Programs.{token_count, token_at};
ghost use Rattle.bytecode.specs.Fields.{record_of};
ghost use Rattle.report.specs.Depth.{shown_depth, opened_after};
ghost use Rattle.report.specs.computed.Writers.{Listed, HasRoom, Puts, Measured, all_lines};

use layout::opcodes;
use layout::opcodes::Flow;
use layout::record::Token;

// A line for each token, none of which has more than 128 bytes. This and the next are no methods of `Lines`, which is taken apart by their loops.
// The place is handed in and back, since the first line stands before, and each line's is measured alone.
pub(crate) fn put_tokens(out: &mut [u8], at: usize, stage: u8, bytes: &[u8]) -> usize
    requires listed { Listed stage bytes.now }
    requires has_room { HasRoom (all_lines stage bytes.now) (128 * token_count bytes.now) at (length out.old) }
    ensures { Puts (all_lines stage bytes.now) (128 * token_count bytes.now) at out.old out.new result }
{
    let mut place = at;
    for line in Lines::of(stage, bytes) {
        place = line.put(out, place);
    }
    place
}

// How many bytes put_tokens writes.
pub(crate) fn tokens_length(stage: u8, bytes: &[u8]) -> usize
    requires { Listed stage bytes.now }
    ensures { Measured (all_lines stage bytes.now) (128 * token_count bytes.now) result }
{
    let mut total = 0;
    for line in Lines::of(stage, bytes) {
        total += line.length();
    }
    total
}

// The lines of `left` tokens from `token` on, where `opened` branches are open before it. What is left is counted, since the iterator's end is told by
// it (`remaining`).
#[derive(Clone, Copy)]
struct Lines<'a> {
    stage: u8,
    bytes: &'a [u8],
    token: usize,
    left: usize,
    opened: u8,
}

impl<'a> Lines<'a> {
    // Those of all tokens.
    fn of(stage: u8, bytes: &'a [u8]) -> Lines<'a>
        requires { Listed stage bytes.now }
        ensures { result ≡ record { stage = stage; bytes = bytes.entry; token = 0; left = token_count bytes.now; opened = 0 } }
    {
        Lines {
            stage,
            bytes,
            token: 0,
            left: (bytes.len() - 7) / 24,
            opened: 0,
        }
    }
}

impl<'a> Iterator for Lines<'a> {
    ghost use Rattle.std.specs.Iterator.{at_most};
    ghost use Rattle.report.specs.Lines.{Listable};
    ghost use Rattle.report.specs.computed.Turn.{GivesLine};

    type Item = Line;

    ghost can_next = { λ lines. Listable lines.stage lines.bytes.now lines.token lines.left lines.opened };

    ghost next_gives = { GivesLine };

    ghost remaining = { λ lines. at_most lines.left };

    // Compiled into the loops, so that a line does not go through memory.
    #[inline(always)]
    fn next(&mut self) -> Option<Line> {
        if self.left == 0 {
            return None;
        }
        let token = token_at(self.bytes, self.token);
        let depth = shown_depth(token.opcode, self.opened);
        let line = Line {
            token,
            stage: self.stage,
            depth,
        };
        *self = Lines {
            stage: self.stage,
            bytes: self.bytes,
            token: self.token + 1,
            left: self.left - 1,
            opened: opened_after(token.opcode, self.opened),
        };
        Some(line)
    }
}

// A record, and the stage and the depth in which it has a line.
// The stage is the number that the check answered and that `listing::line` takes.
#[derive(Clone, Copy)]
struct Line {
    token: Token,
    stage: u8,
    depth: u8,
    ghost nameable: { is_nameable token stage depth ≡ true },
}

impl Line {
    fn put(self, out: &mut [u8], at: usize) -> usize
        requires { HasRoom (line_of self.token self.stage self.depth) 128 at (length out.old) }
        ensures { Puts (line_of self.token self.stage self.depth) 128 at out.old out.new result }
    {
        at + listing::line(self.token, self.stage, self.depth, &mut out[at..]).unwrap()
    }

    // How many bytes put writes: it is written to know. The length of a line, of a first line and of a text is known in no other way.
    fn length(self) -> usize
        ensures { Measured (line_of self.token self.stage self.depth) 128 result }
    {
        let mut line = [0u8; 128];
        self.put(&mut line, 0)
    }
}

// The record of a token that decode does not refuse.
fn token_at(bytes: &[u8], token: usize) -> Token
    requires { decode_of (token_at bytes.now token) ≡ Ok (record_of (token_at bytes.now token)) }
    ensures { result ≡ record_of (token_at bytes.now token) }
{
    reader::read_at(bytes, token).unwrap()
}

// Els and eif stand at the depth of their opener. What is open after a token is another count, told by other arms.
fn shown_depth(opcode: u32, opened: u8) -> u8
    ensures { result ≡ shown_depth (flow_of opcode) opened }
{
    match opcodes::flow_of(opcode) {
        Flow::Plain | Flow::Opener => opened,
        Flow::Els | Flow::Eif => opened.saturating_sub(1),
    }
}

// How many branches are open after a token.
fn opened_after(opcode: u32, opened: u8) -> u8
    requires { opened ≤ 17 }
    ensures { result ≡ opened_after (flow_of opcode) opened }
{
    match opcodes::flow_of(opcode) {
        Flow::Plain | Flow::Els => opened,
        Flow::Opener => opened + 1,
        Flow::Eif => opened.saturating_sub(1),
    }
}
