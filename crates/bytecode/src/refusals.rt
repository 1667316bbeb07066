// The refusals that every call answers with are made here.
ghost use Rattle.std.specs.Prelude.{◌≡◌};
ghost use Rattle.bytecode.specs.Decode.{refusal as refused};

use crate::answers::Refusal;

// The refusal with these numbers.
pub fn refusal(number: u8, token: usize, part: u8) -> Refusal
    ensures { result ≡ refused number token part }
{
    Refusal {
        number,
        token,
        part,
    }
}
