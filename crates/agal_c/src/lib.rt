// The calls of the C interface: those of the libraries, on numbers and byte slices. The crate `agal_exports` hands them out to C, where a
// slice is a pointer and a length; `include/agal.h` declares them, and says what a caller hands over.
#![tactic(auto)]

pub mod answers;
mod flat;
mod values;

ghost use Rattle.std.specs.Prelude.{◌≡◌};
ghost use Rattle.bytecode.specs.Bias.{IsBias};
ghost use Rattle.bytecode.specs.Decode.{decode_of};
ghost use Rattle.reader.specs.Reading.{read_of};
ghost use Rattle.verifier.specs.Verdict.{verdict};
ghost use Rattle.listing.specs.Printing.{print_answer, after_print};
ghost use Rattle.report.specs.Text.{text_of};
ghost use Rattle.agal_c.specs.Calls.{check_answer, delivery_answer, delivered, encode_answer, after_flat_encode, printed_answer, line_answer_of, after_flat_line};

use crate::answers::Answer;
use layout::record::Sampler;

// Judges a program under an edition: its stage and token count, or the first fault.
pub fn agal_check(edition: u32, program: &[u8]) -> Answer
    ensures { result ≡ check_answer (verdict edition program.now) }
{
    Answer::from(verifier::check(edition, program))
}

// Decodes a token into its flat form, of 29 bytes. A fault of the token comes before 23.
pub fn agal_decode(token: &[u8], flat: &mut [u8]) -> Answer
    ensures value { result ≡ delivery_answer 0 29 (decode_of token.now) flat.old }
    ensures flat_after { flat.new ≡ delivered (decode_of token.now) flat.old }
{
    if let Some(fault) = flat::outright_fault(token) {
        return Answer::refused_at(fault, 0, 0);
    }
    Answer::delivered(flat::deliver(token, flat), 0, 29)
}

// The step of a reader that has read `place` tokens: the flat form of the next, and the place after it.
pub fn agal_read(program: &[u8], place: usize, flat: &mut [u8]) -> Answer
    ensures value { result ≡ delivery_answer place 1 (read_of program.now place) flat.old }
    ensures flat_after { flat.new ≡ delivered (read_of program.now place) flat.old }
{
    let token = reader::token_bytes(program, place);
    if let Some(fault) = flat::outright_fault(token) {
        return Answer::refused_at(fault, 0, place);
    }
    Answer::delivered(flat::deliver(token, flat), place, place + 1)
}

// Encodes a flat form into 24 bytes. What is no flat form is 25, as a record that is not encodable is.
pub fn agal_encode(flat: &[u8], out: &mut [u8]) -> Answer
    ensures value { result ≡ encode_answer flat.now out.old }
    ensures out_after { out.new ≡ after_flat_encode flat.now out.old }
{
    if !flat::is_flat(flat) {
        return Answer::refused_at(25, 0, 0);
    }
    Answer::from(bytecode::encode(flat::token_of(flat), out))
}

// The listing line of a flat form, and its length. Numbers that are no byte are no stage and no depth.
pub fn agal_line(flat: &[u8], stage: u32, depth: u32, out: &mut [u8]) -> Answer
    ensures value { result ≡ line_answer_of flat.now stage depth out.old }
    ensures out_after { out.new ≡ after_flat_line flat.now stage depth out.old }
{
    if !flat::is_flat(flat) {
        return Answer::refused_at(25, 0, 0);
    }
    let (Ok(stage), Ok(depth)) = (u8::try_from(stage), u8::try_from(depth)) else {
        return Answer::refused_at(25, 0, 0);
    };
    Answer::from(listing::line(flat::token_of(flat), stage, depth, out))
}

// The whole text that agallist prints for an edition digit and a program, and its length.
pub fn agal_report(input: &[u8], out: &mut [u8]) -> Answer
    ensures value { result ≡ printed_answer (print_answer (text_of input.now) out.old) }
    ensures out_after { out.new ≡ after_print (text_of input.now) out.old }
{
    Answer::from(report::report(input, out))
}

// The bias of a sampler whose record has this signed byte, as a float. Nothing else of the sampler counts.
pub fn agal_bias(bias: i8) -> f32
    ensures { IsBias bias result }
{
    bytecode::bias(Sampler {
        number: 0,
        bias,
        kind: 0,
        dimension: 0,
        special: 0,
        wrap: 0,
        mipmap: 0,
        filter: 0,
    })
}
