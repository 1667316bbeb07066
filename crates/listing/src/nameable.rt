// Which records have a line.
ghost use Rattle.std.specs.Prelude.{◌≡◌};
ghost use Rattle.listing.specs.Line.{is_nameable, destination_has_names, operand_has_names};

use layout::record::{MaskedRegister, Operand, Token};

// The three values that the public line takes; a struct of them would be made there alone.
pub(crate) fn nameable(token: Token, stage: u8, depth: u8) -> bool
    ensures { result ≡ is_nameable token stage depth }
{
    bytecode::encodable(token)
        & (stage <= 1)
        & (depth <= 16)
        & destination_has_names(token.destination)
        & operand_has_names(token.source1)
        & operand_has_names(token.source2)
}

fn destination_has_names(destination: Option<MaskedRegister>) -> bool
    ensures { result ≡ destination_has_names destination }
{
    destination.is_none_or(|register| register.kind <= 6)
}

// An index type counts only for an indexed source.
fn operand_has_names(operand: Operand) -> bool
    ensures { result ≡ operand_has_names operand }
{
    match operand {
        Operand::Unused => true,
        Operand::Direct(source) => source.kind <= 6,
        Operand::Indexed(source) => (source.kind <= 6) & (source.index_kind <= 6),
        Operand::Sampler(sampler) => !layout::settings_wrong(sampler),
    }
}
