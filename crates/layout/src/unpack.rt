// A record from the fields of a token: each value is read at its bits. Every field has the values of every kind of part; which kind it is
// comes from the opcode. That is why these are functions by name, and no `From<u64>`: a field alone doesn't say what it is the field of.
ghost use Rattle.std.specs.Prelude.{◌≡◌};
ghost use Rattle.layout.specs.Layout as layout;
ghost use Rattle.layout.specs.Layout.{value_of};
ghost use Rattle.layout.specs.Records.{signed, register_of, is_indexed, direct_of, indexed_of, source_of, sampler_of, destination_of, operand_of};

use crate::bits;
use crate::opcodes::OperandShape;
use crate::record::{DirectSource, IndexedSource, MaskedRegister, Operand, Sampler};

// Here a flag and the field beside it become an Option.
pub fn unpack_destination(used: bool, field: u64) -> Option<MaskedRegister>
    ensures { result ≡ destination_of used field }
{
    used.then(|| unpack_register(field))
}

pub fn unpack_operand(shape: OperandShape, field: u64) -> Operand
    ensures { result ≡ operand_of shape field }
{
    match shape {
        OperandShape::Unused => Operand::Unused,
        OperandShape::Source => unpack_source(field),
        OperandShape::Sampler => Operand::Sampler(unpack_sampler(field)),
    }
}

pub fn unpack_register(field: u64) -> MaskedRegister
    ensures { result ≡ register_of field }
{
    MaskedRegister {
        number: number_of(field),
        mask: bits::MASK.byte_of(field),
        kind: bits::MASKED_KIND.byte_of(field),
    }
}

fn unpack_source(field: u64) -> Operand
    ensures { result ≡ source_of field }
{
    if is_indexed(field) {
        return Operand::Indexed(unpack_indexed(field));
    }
    Operand::Direct(unpack_direct(field))
}

// Whether the field of a source is that of an indexed one.
pub fn is_indexed(field: u64) -> bool
    ensures { result ≡ is_indexed field }
{
    bits::INDIRECT.byte_of(field) != 0
}

// A direct source has the same rows as an indexed one.
pub fn unpack_direct(field: u64) -> DirectSource
    ensures { result ≡ direct_of field }
{
    unpack_indexed(field).into()
}

pub fn unpack_indexed(field: u64) -> IndexedSource
    ensures { result ≡ indexed_of field }
{
    IndexedSource {
        number: number_of(field),
        offset: bits::OFFSET.byte_of(field),
        swizzle: bits::SWIZZLE.byte_of(field),
        kind: bits::KIND.byte_of(field),
        index_kind: bits::INDEX_KIND.byte_of(field),
        component: bits::COMPONENT.byte_of(field),
    }
}

pub fn unpack_sampler(field: u64) -> Sampler
    ensures { result ≡ sampler_of field }
{
    Sampler {
        number: number_of(field),
        bias: signed_byte(bits::BIAS.byte_of(field)),
        kind: bits::KIND.byte_of(field),
        dimension: bits::DIMENSION.byte_of(field),
        special: bits::SPECIAL.byte_of(field),
        wrap: bits::WRAP.byte_of(field),
        mipmap: bits::MIPMAP.byte_of(field),
        filter: bits::FILTER.byte_of(field),
    }
}

// A byte as a signed number, by two's complement: a public name for what std has.
pub fn signed_byte(byte: u8) -> i8
    ensures { result ≡ signed byte }
{
    byte.cast_signed()
}

// The number, in every field.
fn number_of(field: u64) -> u16
    ensures { result ≡ value_of layout.number field }
{
    bits::NUMBER.value_of(field) as u16
}
