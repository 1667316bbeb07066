// The flat form of a record: 29 bytes that C can hold. The opcode has 4, the destination 5, each source 10. Numbers of more than one byte
// have their lowest byte first.
ghost use Rattle.std.specs.Prelude.{◌+◌, ◌*◌, ◌≤◌, ◌≡◌, true, false, cond, ◌++◌, length, drop, IfNone, IfSome, Err};
ghost use Rattle.layout.specs.Layout.{source_rows, defined_bits, destination_bits, operand_bits, is_stray};
ghost use Rattle.layout.specs.Opcodes.{shape_of};
ghost use Rattle.layout.specs.Records.{destination_of, operand_of, token_of};
ghost use Rattle.bytecode.specs.Fields.{fields_of};
ghost use Rattle.bytecode.specs.Decode.{refusal, decode_of};
ghost use Rattle.bytecode.specs.computed.CleanFields.{is_clean};
ghost use Rattle.bytecode.specs.computed.Stored.{with_bytes};
ghost use Rattle.agal_c.specs.Calls.{delivered};
ghost use Rattle.agal_c.specs.computed.Delivery.{delivery_code, source_values};
ghost use Rattle.agal_c.specs.Values.{destination_values, operand_values};
ghost use Rattle.agal_c.specs.Flat.{destination_bytes, operand_bytes, flat_of, is_flat, values_at, token_of_flat};

use crate::values;
use crate::values::Values;
use layout::fields::RawToken;
use layout::opcodes::OperandShape;
use layout::record::Token;

// The fault that is told before any field but the opcode is looked into: 24 where the bytes are no whole token, 9 where the opcode is not
// listed. A number alone, as a refusal has it: neither has a part, and the place is the caller's. It is small enough to be compiled into its callers, so that such bytes cost no further call.
pub(crate) fn outright_fault(token: &[u8]) -> Option<u8>
    ensures whole { IfNone result (length token.now ≡ 24) }
    ensures told { IfSome result (λ fault. decode_of token.now ≡ Err (refusal fault 0 0)) }
    ensures listed { IfNone result ((shape_of (fields_of token.now).opcode).listed ≡ true) }
{
    if token.len() != 24 {
        return Some(24);
    }
    let raw = RawToken::of(bytecode::fields_of(token));
    if raw.shape.listed { None } else { Some(9) }
}

// Writes the flat form of a token and returns 0, or returns the token's first fault, its number plus 256 times its part; 23 where the lent
// buffer has no room for a flat form. A number and not a Result: it comes back in a register. As a struct, which was tried, it is written to
// memory and read from it at once, and the processor waits (docs/DECISIONS.md, 48).
pub(crate) fn deliver(token: &[u8], flat: &mut [u8]) -> u32
    requires { length token.now ≡ 24 }
    ensures value { result ≡ delivery_code (decode_of token.now) flat.old }
    ensures flat_after { flat.new ≡ delivered (decode_of token.now) flat.old }
{
    let raw = RawToken::of(bytecode::fields_of(token));
    if !bytecode::is_clean(raw) {
        let Err(fault) = bytecode::fault_of(raw) else {
            unreachable!();
        };
        return fault.number as u32 + 256 * fault.part as u32;
    }
    if flat.len() < 29 {
        return 23;
    }
    put_token(raw, flat);
    0
}

// Writes the flat form of the record that fields make to the first 29 bytes. No record is made: where no undefined bit is set, the bytes of
// a destination's or a source's field are its values, in the order of the flat form.
fn put_token(raw: RawToken, out: &mut [u8])
    requires in_bounds { 29 ≤ length out.old }
    requires clean { is_clean raw.shape raw.fields ≡ true }
    ensures { out.new ≡ flat_of (token_of raw.shape raw.fields) ++ drop 29 out.old }
{
    let RawToken { shape, fields } = raw;
    bytecode::put_word(out, 0, fields.opcode as u64);
    put_destination(out, shape.destination, fields.destination);
    put_operand(out, 9, shape.source1, fields.source1);
    put_operand(out, 19, shape.source2, fields.source2);
}

// The flag is a byte of the flat form itself.
fn put_destination(out: &mut [u8], used: bool, field: u64)
    requires in_bounds { 9 ≤ length out.old }
    requires field_value { is_stray (destination_bits used) field ≡ false }
    ensures { out.new ≡ with_bytes out.old 4 (destination_bytes (destination_values (destination_of used field))) }
{
    out[4] = used as u8;
    bytecode::put_word(out, 5, field);
}

// An unused field is 0, and is written as a source is, whose values are then 0. Each arm stores its own bytes: stored where the arms meet,
// every value of a sampler would go through memory first.
fn put_operand(out: &mut [u8], at: usize, shape: OperandShape, field: u64)
    requires at_in_bounds { at + 10 ≤ length out.old }
    requires field_value { is_stray (operand_bits shape) field ≡ false }
    ensures { out.new ≡ with_bytes out.old at (operand_bytes (operand_values (operand_of shape field))) }
{
    match shape {
        OperandShape::Unused => put_source(out, at, 0, field),
        OperandShape::Source => put_source(out, at, source_form(layout::is_indexed(field)), field),
        OperandShape::Sampler => put_values(out, at, values::sampler_values(field)),
    }
}

fn source_form(indexed: bool) -> u8
    ensures { result ≡ cond indexed 2 1 }
{
    if indexed { 2 } else { 1 }
}

// A form and the values of a source: the bytes of its field without D, which the form tells, and 0, where a sampler has its last value.
fn put_source(out: &mut [u8], at: usize, form: u8, field: u64)
    requires at_in_bounds { at + 10 ≤ length out.old }
    requires field_value { is_stray (defined_bits source_rows) field ≡ false }
    ensures { out.new ≡ with_bytes out.old at (operand_bytes (source_values form field)) }
{
    out[at] = form;
    bytecode::put_word(out, at + 1, field);
    bytecode::put_word(out, at + 5, field % 0x8000_0000_0000_0000 / 0x1_0000_0000);
    out[at + 9] = 0;
}

// Ten bytes from a place on, and no array of ten: `put_word` too takes a buffer and a place.
fn put_values(out: &mut [u8], at: usize, v: Values)
    requires { at + 10 ≤ length out.old }
    ensures { out.new ≡ with_bytes out.old at (operand_bytes v) }
{
    out[at] = v.form;
    let [low, high] = v.number.to_le_bytes();
    out[at + 1] = low;
    out[at + 2] = high;
    out[at + 3] = v.first;
    out[at + 4] = v.second;
    out[at + 5] = v.third;
    out[at + 6] = v.fourth;
    out[at + 7] = v.fifth;
    out[at + 8] = v.sixth;
    out[at + 9] = v.seventh;
}

// Whether bytes are long enough for a flat form, and its forms are known.
pub(crate) fn is_flat(flat: &[u8]) -> bool
    ensures { result ≡ is_flat flat.now }
{
    if flat.len() < 29 {
        return false;
    }
    (flat[4] <= 1) & (flat[9] <= 3) & (flat[19] <= 3)
}

// Compiled into its callers, as `encodable` is, so that the record is not laid out in memory.
#[inline(always)]
pub(crate) fn token_of(flat: &[u8]) -> Token
    requires { 29 ≤ length flat.now }
    ensures { result ≡ token_of_flat flat.now }
{
    Token {
        opcode: layout::word(flat[0], flat[1], flat[2], flat[3]),
        destination: values::destination_from(values_at(flat, 4)),
        source1: values::operand_from(values_at(flat, 9)),
        source2: values::operand_from(values_at(flat, 19)),
    }
}

fn values_at(flat: &[u8], at: usize) -> Values
    requires { at + 10 ≤ length flat.now }
    ensures { result ≡ values_at flat.now at }
{
    Values {
        form: flat[at],
        number: u16::from_le_bytes([flat[at + 1], flat[at + 2]]),
        first: flat[at + 3],
        second: flat[at + 4],
        third: flat[at + 5],
        fourth: flat[at + 6],
        fifth: flat[at + 7],
        sixth: flat[at + 8],
        seventh: flat[at + 9],
    }
}
