// The reader, and what opening and reading answer.
ghost use Rattle.reader.specs.Reading.{Opens, Reads};

use crate::steps;
use bytecode::answers::Refusal;
use layout::record::Token;

// The lent program, and the reader's place in it: the number of tokens read, which is the number of the token it stands at.
#[derive(Clone, Copy)]
pub struct TokenReader<'a> {
    pub program: &'a [u8],
    pub place: usize,
}

// `Opened` and `Read` differ in the answer alone, and are two types, since `Opens` and `Reads`, and the theorems on them, name each. A refused opening
// has a reader too, and its reads answer that no whole token is left.
#[derive(Clone, Copy)]
pub struct Opened<'a> {
    pub answer: Result<(), Refusal>,
    pub reader: TokenReader<'a>,
}

#[derive(Clone, Copy)]
pub struct Read<'a> {
    pub answer: Result<Token, Refusal>,
    pub reader: TokenReader<'a>,
}

impl<'a> TokenReader<'a> {
    // A reader over a program, at its first token.
    pub fn open(program: &'a [u8]) -> Opened<'a>
        ensures { Opens program.entry result }
    {
        let reader = TokenReader { program, place: 0 };
        if program.len() < 7 {
            let answer = Err(bytecode::refusal(2, 0, 0));
            return Opened { answer, reader };
        }
        let answer = Ok(());
        Opened { answer, reader }
    }

    // The next token, and the reader after it: a token moves it on, a refusal does not.
    pub fn read(self) -> Read<'a>
        ensures { Reads self.entry result }
    {
        let answer = steps::read_at(self.program, self.place);
        let place = match answer {
            Ok(_) => self.place + 1,
            Err(_) => self.place,
        };
        let reader = TokenReader {
            program: self.program,
            place,
        };
        Read { answer, reader }
    }
}
