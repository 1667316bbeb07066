// Decode: a record from 24 bytes, or the first fault.
ghost use Rattle.std.specs.Prelude.{◌≡◌};
ghost use Rattle.bytecode.specs.Decode.{Decodes, outcome, token_fault, unused_not_zero, undefined_bit_set, lowest_part};
ghost use Rattle.bytecode.specs.computed.CleanFields.{is_clean, part_of, LowestPart};

use crate::answers::Refusal;
use crate::{fields, refusals};
use layout::bits;
use layout::fields::RawToken;
use layout::record::Token;

// The record of a token's bytes. Err is the first fault: 24 where they are not 24 bytes, and then that of the fields.
pub fn decode(bytes: &[u8]) -> Result<Token, Refusal>
    ensures { Decodes bytes.now result }
{
    if bytes.len() != 24 {
        return Err(refusals::refusal(24, 0, 0));
    }
    let raw = RawToken::of(fields::read_fields(bytes));
    if !is_clean(raw) {
        fault_of(raw)?;
    }
    Ok(raw.token())
}

// Looks for a fault in a token's fields. Err is the first: 9 where the opcode is not listed, then 12 where an unused field is not 0, then 13
// where a used field has an undefined bit. 12 and 13 name the lowest part at fault.
pub fn fault_of(raw: RawToken) -> Result<(), Refusal>
    ensures { result ≡ outcome (token_fault raw.shape raw.fields) }
{
    if !raw.shape.listed {
        return Err(refusals::refusal(9, 0, 0));
    }
    if let Some(part) = lowest_part(raw, unused_not_zero) {
        return Err(refusals::refusal(12, 0, part));
    }
    if let Some(part) = lowest_part(raw, undefined_bit_set) {
        return Err(refusals::refusal(13, 0, part));
    }
    Ok(())
}

// Whether the opcode is listed and no field has a stray bit. Most tokens are clean, so it is tested before a fault is looked for.
#[tactic(auto, unfolding(crate::specs::computed::CleanFields::is_clean))]
pub fn is_clean(raw: RawToken) -> bool
    ensures { result ≡ is_clean raw.shape raw.fields }
{
    // The defined bits of the three fields, as in `lowest_part`: a struct for them would be made and taken apart in these two alone.
    let RawToken { shape, fields } = raw;
    let destination = bits::destination_bits(shape.destination);
    let source1 = bits::operand_bits(shape.source1);
    let source2 = bits::operand_bits(shape.source2);
    shape.listed
        && !(bits::is_stray(destination, fields.destination)
            | bits::is_stray(source1, fields.source1)
            | bits::is_stray(source2, fields.source2))
}

// The tests of 12 and of 13, each by its definition. A field with no defined bits is unused, and must be 0.
fn unused_not_zero(defined: u64, field: u64) -> bool
    ensures { result ≡ unused_not_zero defined field }
{
    (defined == 0) & bits::is_stray(defined, field)
}

fn undefined_bit_set(defined: u64, field: u64) -> bool
    ensures { result ≡ undefined_bit_set defined field }
{
    (defined != 0) & bits::is_stray(defined, field)
}

// The lowest part that a test finds at fault, by a field's defined bits and the field: 1 the destination, 2 source 1, 3 source 2.
fn lowest_part<F: Fn(u64, u64) -> bool>(raw: RawToken, is_at_fault: F) -> Option<u8>
    requires { F.IsAlwaysCallable is_at_fault }
    ensures { LowestPart (F.post is_at_fault) raw.shape raw.fields result }
{
    let RawToken { shape, fields } = raw;
    let destination = bits::destination_bits(shape.destination);
    let source1 = bits::operand_bits(shape.source1);
    let source2 = bits::operand_bits(shape.source2);
    lowest(
        is_at_fault(destination, fields.destination),
        is_at_fault(source1, fields.source1),
        is_at_fault(source2, fields.source2),
    )
}

fn lowest(destination: bool, source1: bool, source2: bool) -> Option<u8>
    ensures { result ≡ part_of (lowest_part destination source1 source2) }
{
    if destination {
        Some(1)
    } else if source1 {
        Some(2)
    } else if source2 {
        Some(3)
    } else {
        None
    }
}
