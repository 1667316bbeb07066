// What the exported functions answer, as C reads it: `include/agal.h` has the same struct.
ghost use Rattle.std.specs.Prelude.{◌≡◌};
ghost use Rattle.bytecode.specs.Decode.{refusal};

use bytecode::answers::Refusal;
use verifier::answers::Program;

// `number` is 0 where nothing is refused. `token` and `part` are the place of a refusal, `stage` is what check found, and `value` what else
// is answered: the token count of check, the length of what was written, or the reader's place.
#[repr(C)]
#[derive(Clone, Copy)]
pub struct Answer {
    pub number: u8,
    pub part: u8,
    pub stage: u8,
    pub token: usize,
    pub value: usize,
}

impl Answer {
    ghost use Rattle.agal_c.specs.Answers.{answered as answered_of, refused as refused_of};
    ghost use Rattle.agal_c.specs.computed.Delivery.{code_answer};

    pub(crate) fn answered(stage: u8, value: usize) -> Answer
        ensures { result ≡ answered_of stage value }
    {
        Answer {
            number: 0,
            part: 0,
            stage,
            token: 0,
            value,
        }
    }

    pub(crate) fn refused(refusal: Refusal, value: usize) -> Answer
        ensures { result ≡ refused_of refusal value }
    {
        Answer {
            number: refusal.number,
            part: refusal.part,
            stage: 0,
            token: refusal.token,
            value,
        }
    }

    // A refusal at a place: the place is its token and also the value, since a refusal does not move on.
    pub(crate) fn refused_at(number: u8, part: u8, place: usize) -> Answer
        ensures { result ≡ refused_of (refusal number place part) place }
    {
        Answer::refused(bytecode::refusal(number, place, part), place)
    }

    // The answer to what `deliver` returned, a number for the reason there, for the token at a place: the next place as the value, or the fault,
    // at that place.
    pub(crate) fn delivered(code: u32, place: usize, next: usize) -> Answer
        ensures { result ≡ code_answer code place next }
    {
        if code == 0 {
            return Answer::answered(0, next);
        }
        Answer::refused_at((code % 256) as u8, (code / 256 % 256) as u8, place)
    }
}

// Three impls, each with a definition of its own: a generic one would need a trait for what Ok holds, which is all that they differ in. Of a program
// its stage and token count.
impl From<Result<Program, Refusal>> for Answer {
    ghost use Rattle.agal_c.specs.Calls.{check_answer};

    ghost from_gives = { λ checked answer. answer ≡ check_answer checked };

    fn from(checked: Result<Program, Refusal>) -> Answer {
        match checked {
            Ok(p) => Answer::answered(p.stage, p.tokens),
            Err(r) => Answer::refused(r, 0),
        }
    }
}

// Of a token that is encoded the 24 bytes that are written.
impl From<Result<(), Refusal>> for Answer {
    ghost use Rattle.agal_c.specs.Calls.{encoded_answer};

    ghost from_gives = { λ encoded answer. answer ≡ encoded_answer encoded };

    fn from(encoded: Result<(), Refusal>) -> Answer {
        match encoded {
            Ok(()) => Answer::answered(0, 24),
            Err(r) => Answer::refused(r, 0),
        }
    }
}

// Of a text its length.
impl From<Result<usize, Refusal>> for Answer {
    ghost use Rattle.agal_c.specs.Calls.{printed_answer};

    ghost from_gives = { λ printed answer. answer ≡ printed_answer printed };

    fn from(printed: Result<usize, Refusal>) -> Answer {
        match printed {
            Ok(n) => Answer::answered(0, n),
            Err(r) => Answer::refused(r, 0),
        }
    }
}
