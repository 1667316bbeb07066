// The C interface: a static library whose functions are those of the crate `agal_c`, with the same promises: two crates, since no crate
// can call or cite a static library. A slice is a pointer and a
// length in C; `include/agal.h` declares the functions, and says what a caller hands over.
#![tactic(auto)]

ghost use Rattle.std.specs.Prelude.{◌≡◌};
ghost use Rattle.bytecode.specs.Bias.{IsBias};
ghost use Rattle.bytecode.specs.Decode.{decode_of};
ghost use Rattle.reader.specs.Reading.{read_of};
ghost use Rattle.verifier.specs.Verdict.{verdict};
ghost use Rattle.listing.specs.Printing.{print_answer, after_print};
ghost use Rattle.report.specs.Text.{text_of};
ghost use Rattle.agal_c.specs.Calls.{check_answer, delivery_answer, delivered, encode_answer, after_flat_encode, printed_answer, line_answer_of, after_flat_line};

use agal_c::answers::Answer;

// Judges a program under an edition: its stage and token count, or the first fault.
#[unsafe(no_mangle)]
pub extern "C" fn agal_check(edition: u32, program: &[u8]) -> Answer
    ensures { result ≡ check_answer (verdict edition program.now) }
{
    agal_c::agal_check(edition, program)
}

// Decodes a token into its flat form, of 29 bytes. A fault of the token comes before 23.
#[unsafe(no_mangle)]
pub extern "C" fn agal_decode(token: &[u8], flat: &mut [u8]) -> Answer
    ensures value { result ≡ delivery_answer 0 29 (decode_of token.now) flat.old }
    ensures flat_after { flat.new ≡ delivered (decode_of token.now) flat.old }
{
    agal_c::agal_decode(token, flat)
}

// The step of a reader that has read `place` tokens: the flat form of the next, and the place after it.
#[unsafe(no_mangle)]
pub extern "C" fn agal_read(program: &[u8], place: usize, flat: &mut [u8]) -> Answer
    ensures value { result ≡ delivery_answer place 1 (read_of program.now place) flat.old }
    ensures flat_after { flat.new ≡ delivered (read_of program.now place) flat.old }
{
    agal_c::agal_read(program, place, flat)
}

// Encodes a flat form into 24 bytes. What is no flat form is 25, as a record that is not encodable is.
#[unsafe(no_mangle)]
pub extern "C" fn agal_encode(flat: &[u8], out: &mut [u8]) -> Answer
    ensures value { result ≡ encode_answer flat.now out.old }
    ensures out_after { out.new ≡ after_flat_encode flat.now out.old }
{
    agal_c::agal_encode(flat, out)
}

// The listing line of a flat form, and its length. Numbers that are no byte are no stage and no depth.
#[unsafe(no_mangle)]
pub extern "C" fn agal_line(flat: &[u8], stage: u32, depth: u32, out: &mut [u8]) -> Answer
    ensures value { result ≡ line_answer_of flat.now stage depth out.old }
    ensures out_after { out.new ≡ after_flat_line flat.now stage depth out.old }
{
    agal_c::agal_line(flat, stage, depth, out)
}

// The whole text that agallist prints for an edition digit and a program, and its length.
#[unsafe(no_mangle)]
pub extern "C" fn agal_report(input: &[u8], out: &mut [u8]) -> Answer
    ensures value { result ≡ printed_answer (print_answer (text_of input.now) out.old) }
    ensures out_after { out.new ≡ after_print (text_of input.now) out.old }
{
    agal_c::agal_report(input, out)
}

// The bias of a sampler whose record has this signed byte, as a float. Nothing else of the sampler counts.
#[unsafe(no_mangle)]
pub extern "C" fn agal_bias(bias: i8) -> f32
    ensures { IsBias bias result }
{
    agal_c::agal_bias(bias)
}
