// What the reader answers, on a plain slice and a number of tokens read.
ghost use Rattle.std.specs.Prelude.{◌≡◌};
ghost use Rattle.reader.specs.Reading.{ReadsAt};
ghost use Rattle.reader.specs.computed.Steps.{token_bytes};

use bytecode::answers::Refusal;
use layout::record::Token;

// The bytes of a token, or none where the program has no such token: no Option, since decode of no bytes answers 24.
pub fn token_bytes(program: &[u8], token: usize) -> &[u8]
    ensures { result.now ≡ token_bytes program.now token }
{
    // A header of 7 bytes and one token are 31. Any number may come in, so no sum is made before the token is known to stand within the
    // program.
    if program.len() < 31 {
        return &program[..0];
    }
    if (program.len() - 31) / 24 < token {
        return &program[..0];
    }
    let start = 7 + token * 24;
    let end = start + 24;
    &program[start..end]
}

// What a reader that has read `token` tokens answers. Where there is no such token, decode answers 24 of no bytes. A refusal names the
// token that the reader stands at.
pub fn read_at(program: &[u8], token: usize) -> Result<Token, Refusal>
    ensures { ReadsAt program.now token result }
{
    bytecode::decode(token_bytes(program, token)).map_err(|r| bytecode::refusal(
        r.number, token, r.part,
    ))
}
