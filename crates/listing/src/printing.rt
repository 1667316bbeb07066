// A whole text into a lent buffer, or the refusal with every byte as it was.
// `line` and `first_line` end alike, each with its own length. One function for both, which takes what writes as a closure, needs more lines
// of clauses (a ghost value for the text, a `requires` for each call, and a closure with clauses of its own at each of the two) than it saves.
ghost use Rattle.listing.specs.Printing.{Prints};

use crate::text::Writer;
use bytecode::answers::Refusal;

pub(crate) fn print(text: &[u8], out: &mut [u8]) -> Result<usize, Refusal>
    ensures { Prints text.now out.old out.new result }
{
    if out.len() < text.len() {
        return Err(bytecode::refusal(23, 0, 0));
    }
    let mut w = Writer::new(out);
    w.copied(text);
    Ok(w.length())
}
