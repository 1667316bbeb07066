// The four fields of a token as numbers, with and without the shape of its opcode, and a number from its bytes.
ghost use Rattle.std.specs.Prelude.{◌≡◌, ◌+◌, ◌*◌};
ghost use Rattle.layout.specs.Opcodes.{shape_of};
ghost use Rattle.layout.specs.Records.{token_of};

use crate::opcodes::Shape;
use crate::record::Token;
use crate::{opcodes, unpack};

#[derive(Clone, Copy)]
pub struct Fields {
    pub opcode: u32,
    pub destination: u64,
    pub source1: u64,
    pub source2: u64,
}

// A token whose record is not made yet: its fields, and what each of them holds.
#[derive(Clone, Copy)]
pub struct RawToken {
    pub shape: Shape,
    pub fields: Fields,
}

impl RawToken {
    // The fields, with the shape of their opcode. By name and no From: the shape is looked up.
    pub fn of(fields: Fields) -> RawToken
        ensures { result ≡ record { shape = shape_of fields.opcode; fields = fields } }
    {
        let shape = opcodes::shape_of(fields.opcode);
        RawToken { shape, fields }
    }

    // The record that they make.
    #[tactic(auto, unfolding(crate::specs::Records::token_of))]
    pub fn token(self) -> Token
        ensures { result ≡ token_of self.shape self.fields }
    {
        Token {
            opcode: self.fields.opcode,
            destination: unpack::unpack_destination(
                self.shape.destination,
                self.fields.destination,
            ),
            source1: unpack::unpack_operand(self.shape.source1, self.fields.source1),
            source2: unpack::unpack_operand(self.shape.source2, self.fields.source2),
        }
    }
}

// A number from its four bytes, the lowest first: a public name for what std has.
pub fn word(a: u8, b: u8, c: u8, d: u8) -> u32
    ensures { result ≡ a + 256 * b + 65536 * c + 16777216 * d }
{
    u32::from_le_bytes([a, b, c, d])
}
