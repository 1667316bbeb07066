// The reader's methods as functions: what document 01 calls opening and reading, under the names that callers have.
ghost use Rattle.reader.specs.Reading.{Opens, Reads};

use crate::answers::{Opened, Read, TokenReader};

pub fn open<'a>(program: &'a [u8]) -> Opened<'a>
    ensures { Opens program.entry result }
{
    TokenReader::open(program)
}

pub fn read<'a>(reader: TokenReader<'a>) -> Read<'a>
    ensures { Reads reader.entry result }
{
    reader.read()
}
