// A token's fields from its record: each value is placed at its bits.
ghost use Rattle.std.specs.Prelude.{true, ◌≡◌, ◌+◌, ◌<◌, ◌≤◌, ◌^◌, T};
ghost use Rattle.layout.specs.Layout.{placed_at};
ghost use Rattle.bytecode.specs.Encode.{unsigned, is_signed_byte, register_field, destination_field, source_field, sampler_field, operand_field, is_encodable, token_fields};
ghost use Rattle.bytecode.specs.computed.Placed.{RegisterPlaced, SourcePlaced, SamplerPlaced, OperandPlaced};

use layout::bits;
use layout::bits::Bits;
use layout::fields::Fields;
use layout::record::{DirectSource, MaskedRegister, Operand, Sampler, Token};

// The fields of an encodable record.
pub(crate) fn pack_token(token: Token) -> Fields
    requires { is_encodable token ≡ true }
    ensures { result ≡ token_fields token }
{
    Fields {
        opcode: token.opcode,
        destination: token.destination.map_or(0, pack_register),
        source1: pack_operand(token.source1),
        source2: pack_operand(token.source2),
    }
}

#[tactic(auto, unfolding(crate::specs::Encode::register_field))]
fn pack_register(register: MaskedRegister) -> u64
    requires { RegisterPlaced register }
    ensures { result ≡ register_field register }
{
    placed(register.number as u64, bits::NUMBER)
        + placed(register.mask as u64, bits::MASK)
        + placed(register.kind as u64, bits::MASKED_KIND)
}

#[tactic(auto, unfolding(crate::specs::Encode::source_field))]
fn pack_operand(operand: Operand) -> u64
    requires { OperandPlaced operand }
    ensures { result ≡ operand_field operand }
{
    match operand {
        Operand::Unused => 0,
        Operand::Direct(s) => pack_source(s),
        Operand::Indexed(s) => pack_source(s.into()) + placed(1, bits::INDIRECT),
        Operand::Sampler(s) => pack_sampler(s),
    }
}

// The field of a source whose D is 0.
#[tactic(auto, unfolding(crate::specs::Encode::source_field))]
fn pack_source(s: DirectSource) -> u64
    requires { SourcePlaced s.kind s.index_kind s.component }
    ensures value { result ≡ source_field s.number s.offset s.swizzle s.kind s.index_kind s.component 0 }
    ensures without_d { result < 2 ^ 63 }
{
    placed(s.number as u64, bits::NUMBER)
        + placed(s.offset as u64, bits::OFFSET)
        + placed(s.swizzle as u64, bits::SWIZZLE)
        + placed(s.kind as u64, bits::KIND)
        + placed(s.index_kind as u64, bits::INDEX_KIND)
        + placed(s.component as u64, bits::COMPONENT)
}

#[tactic(auto, unfolding(crate::specs::Encode::sampler_field))]
fn pack_sampler(s: Sampler) -> u64
    requires { SamplerPlaced s }
    ensures { result ≡ sampler_field s }
{
    placed(s.number as u64, bits::NUMBER)
        + placed(unsigned_byte(s.bias) as u64, bits::BIAS)
        + placed(s.kind as u64, bits::KIND)
        + placed(s.dimension as u64, bits::DIMENSION)
        + placed(s.special as u64, bits::SPECIAL)
        + placed(s.wrap as u64, bits::WRAP)
        + placed(s.mipmap as u64, bits::MIPMAP)
        + placed(s.filter as u64, bits::FILTER)
}

// The field that has a value at some bits and is 0 elsewhere.
fn placed(value: u64, at: Bits) -> u64
    requires width_bound { at.first + at.width ≤ 64 }
    requires first_bound { at.first < 64 }
    requires value_bound { value < 2 ^ at.width }
    ensures { result ≡ placed_at at.first value }
{
    value << at.first
}

// A signed byte as the byte that says it, by two's complement: a public name for what std has.
pub fn unsigned_byte(value: i8) -> u8
    ensures { (result ≡ unsigned value) × T (is_signed_byte value) }
{
    value.cast_unsigned()
}
