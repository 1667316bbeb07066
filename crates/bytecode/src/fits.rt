// Which records are encodable. A value is tested where its place is narrower than its type; a number, an offset, a swizzle and a bias always fit.
ghost use Rattle.std.specs.Prelude.{◌≡◌, ◌&&◌, ltb};
ghost use Rattle.bytecode.specs.Encode.{register_fits, destination_fits, source_fits, sampler_fits, operand_fits, is_encodable};

use layout::opcodes;
use layout::opcodes::OperandShape;
use layout::record::{DirectSource, MaskedRegister, Operand, Sampler, Token};

// Whether encode, given room, writes a record. Compiled into its callers, so that the record is not laid out in memory:
// an encode takes 20 to 60 instructions less.
#[inline(always)]
#[tactic(auto, unfolding(crate::specs::Encode::is_encodable))]
pub fn encodable(token: Token) -> bool
    ensures { result ≡ is_encodable token }
{
    let shape = opcodes::shape_of(token.opcode);
    shape.listed
        & destination_fits(shape.destination, token.destination)
        & operand_fits(shape.source1, token.source1)
        & operand_fits(shape.source2, token.source2)
}

fn destination_fits(used: bool, destination: Option<MaskedRegister>) -> bool
    ensures { result ≡ destination_fits used destination }
{
    match destination {
        None => !used,
        Some(register) => used & register_fits(register),
    }
}

#[tactic(auto, unfolding(crate::specs::Encode::register_fits))]
fn register_fits(register: MaskedRegister) -> bool
    ensures { result ≡ register_fits register }
{
    (register.mask < 16) & (register.kind < 16)
}

fn operand_fits(shape: OperandShape, operand: Operand) -> bool
    ensures { result ≡ operand_fits shape operand }
{
    match (shape, operand) {
        (OperandShape::Unused, Operand::Unused) => true,
        (OperandShape::Source, Operand::Direct(s)) => source_fits(s),
        (OperandShape::Source, Operand::Indexed(s)) => source_fits(s.into()),
        (OperandShape::Sampler, Operand::Sampler(s)) => sampler_fits(s),
        _ => false,
    }
}

#[tactic(auto, unfolding(crate::specs::Encode::source_fits))]
fn source_fits(s: DirectSource) -> bool
    ensures { result ≡ source_fits s.number s.offset s.swizzle s.kind s.index_kind s.component }
{
    (s.kind < 16) & (s.index_kind < 16) & (s.component < 4)
}

#[tactic(auto, unfolding(crate::specs::Encode::sampler_fits))]
fn sampler_fits(s: Sampler) -> bool
    ensures { result ≡ sampler_fits s }
{
    (s.kind < 16)
        & (s.dimension < 16)
        & (s.special < 16)
        & (s.wrap < 16)
        & (s.mipmap < 16)
        & (s.filter < 16)
}
