// Encode: the 24 bytes of a record into a lent buffer, or the first fault with every byte as it was.
ghost use Rattle.bytecode.specs.Encode.{Encodes};

use crate::answers::Refusal;
use crate::{fields, fits, pack, refusals};
use layout::record::Token;

// Err is 25 where the record isn't encodable, else 23 where the buffer is shorter than 24 bytes.
pub fn encode(token: Token, out: &mut [u8]) -> Result<(), Refusal>
    ensures { Encodes token out.old out.new result }
{
    if !fits::encodable(token) {
        return Err(refusals::refusal(25, 0, 0));
    }
    if out.len() < 24 {
        return Err(refusals::refusal(23, 0, 0));
    }
    fields::write_fields(pack::pack_token(token), out);
    Ok(())
}
