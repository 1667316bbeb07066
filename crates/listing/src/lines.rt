// Line: the listing line of a record into a lent buffer, or the first fault with every byte as it was.
ghost use Rattle.std.specs.Prelude.{◌≤◌, length};
ghost use Rattle.listing.specs.Line.{line_of, Lists};
ghost use Rattle.listing.specs.computed.Writers.{Appends, Nameable};

use crate::stage::Stage;
use crate::text::Writer;
use crate::{nameable, printing};
use bytecode::answers::Refusal;
use layout::record::Token;

// A stage is 0, vertex, or 1, fragment; a depth is 0 to 16.
pub fn line(token: Token, stage: u8, depth: u8, out: &mut [u8]) -> Result<usize, Refusal>
    ensures { Lists token stage depth out.old out.new result }
{
    if !nameable::nameable(token, stage, depth) {
        return Err(bytecode::refusal(25, 0, 0));
    }
    // No line is longer.
    if 128 <= out.len() {
        return Ok(put_line(out, token, stage, depth));
    }
    // Its length is known once it is written, so where the buffer may be too short it is written here first.
    let mut whole = [0u8; 128];
    let n = put_line(&mut whole, token, stage, depth);
    printing::print(&whole[..n], out)
}

fn put_line(out: &mut [u8], token: Token, stage: u8, depth: u8) -> usize
    requires in_bounds { 128 ≤ length out.old }
    requires stage { stage ≤ 1 }
    requires nameable { Nameable token depth }
    ensures { Appends (line_of token stage depth) 128 0 out.old out.new result }
{
    let stage = Stage::of(stage);
    let mut w = Writer::new(out);
    w.indentation(depth);
    w.opcode(token.opcode);
    w.destination(stage, token.destination);
    w.operand(stage, token.source1);
    w.operand(stage, token.source2);
    w.byte(b'\n');
    w.length()
}
