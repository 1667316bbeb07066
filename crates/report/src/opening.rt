// What a text says: its first line, and the bytes whose tokens the lines after it are of.
ghost use Rattle.std.specs.Prelude.{◌≡◌, ◌≤◌, length};
ghost use Rattle.verifier.specs.Verdict.{verdict};
ghost use Rattle.report.specs.Text.{answer_text, is_edition as is_edition_digit, edition_of, text_of};
ghost use Rattle.report.specs.computed.Writers.{HasLines, text_in};
ghost use Rattle.report.specs.computed.Props.{HasLines-prop};

use listing::first::{FirstLine, Heading};

// A first line, and the bytes of a program: where the line says that it is accepted, a line for each of its tokens follows.
#[derive(Clone, Copy)]
pub(crate) struct Text<'a> {
    pub first: FirstLine,
    pub bytes: &'a [u8],
    ghost lines: { HasLines first bytes.now } by { HasLines-prop first bytes.now },
}

impl<'a> Text<'a> {
    // What is printed for an edition digit and a program's bytes.
    pub(crate) fn of(input: &'a [u8]) -> Text<'a>
        ensures { text_of input.now ≡ text_in result.first result.bytes.now }
    {
        if 49160 < input.len() {
            let first = FirstLine::InputTooLong;
            return Text {
                first,
                bytes: input,
            };
        }
        let Some((digit, bytes)) = input.split_first() else {
            let first = FirstLine::NoEdition;
            return Text {
                first,
                bytes: input,
            };
        };
        if !is_edition(*digit) {
            let first = FirstLine::Refused(bytecode::refusal(1, 0, 0));
            return Text { first, bytes };
        }
        Text::answer(edition_of(*digit), bytes)
    }

    // What the check answers. As many bytes hold at most 2048 tokens.
    fn answer(edition: u16, bytes: &'a [u8]) -> Text<'a>
        requires { length bytes.now ≤ 49159 }
        ensures { answer_text edition bytes.now (verdict edition bytes.now) ≡ text_in result.first result.bytes.now }
    {
        let program = match verifier::check(edition as u32, bytes) {
            Ok(program) => program,
            Err(r) => {
                let first = FirstLine::Refused(r);
                return Text { first, bytes };
            }
        };
        let heading = Heading {
            edition,
            stage: program.stage,
            tokens: program.tokens as u16,
        };
        let first = FirstLine::Accepted(heading);
        Text { first, bytes }
    }
}

fn is_edition(digit: u8) -> bool
    ensures { result ≡ is_edition_digit digit }
{
    matches!(digit, b'1'..=b'3')
}

// The edition that a digit names. Whether it names one is asked first, as `text_of` asks it: an Option of both would be taken apart at once.
fn edition_of(digit: u8) -> u16
    requires { (49 ≤ digit) × (digit ≤ 51) }
    ensures { result ≡ edition_of digit }
{
    (digit - b'0') as u16
}
