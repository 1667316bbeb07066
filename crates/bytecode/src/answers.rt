// What decode, encode and every other call answer that refuses.
ghost use Rattle.std.specs.Prelude.{Some};
ghost use Rattle.bytecode.specs.Refusal.{refusal_text};

use std::error::Error;
use std::fmt;

// A refusal by the numbers of the format's rules: the fault, the token it stands at, and the part of the token (0 opcode, 1 destination,
// 2 source 1, 3 source 2). What no rule names is 0.
// They are the format's numbers and no enum of ours: `Numbers` states them, C reads them, and `refusal` makes one of any three.
#[derive(Clone, Copy, Debug, PartialEq, Eq)]
pub struct Refusal {
    pub number: u8,
    pub token: usize,
    pub part: u8,
}

// `refused 14 at 0 part 1`
impl fmt::Display for Refusal {
    ghost output = { λ r. Some (refusal_text r) };

    fn fmt<W: fmt::Write>(&self, f: &mut fmt::Formatter<W>) -> fmt::Result {
        let Refusal {
            number,
            token,
            part,
        } = *self;
        write!(f, "refused {number} at {token} part {part}")
    }
}

impl Error for Refusal {}
