// The four fields of a token as numbers, read from its bytes and written to them.
ghost use Rattle.std.specs.Prelude.{◌≡◌, ◌+◌, ◌≤◌, ◌++◌, length, drop};
ghost use Rattle.layout.specs.Layout.{word_at, long_at};
ghost use Rattle.bytecode.specs.Fields.{fields_of, bytes_of};
ghost use Rattle.bytecode.specs.computed.CleanFields.{fields_in};

use crate::stores;
use layout::fields::Fields;

// The fields of bytes that are no token: all 0, and no Option, since `fields_of` is promised for all bytes (`fields_in`).
const NO_FIELDS: Fields = Fields {
    opcode: 0,
    destination: 0,
    source1: 0,
    source2: 0,
};

// The fields of a token, from its bytes; all 0 where there are fewer than 24.
#[tactic(auto, unfolding(crate::specs::computed::CleanFields::fields_in))]
pub fn fields_of(bytes: &[u8]) -> Fields
    ensures { result ≡ fields_in bytes.now }
{
    if bytes.len() < 24 {
        NO_FIELDS
    } else {
        read_fields(bytes)
    }
}

pub(crate) fn read_fields(bytes: &[u8]) -> Fields
    requires { 24 ≤ length bytes.now }
    ensures { result ≡ fields_of bytes.now }
{
    Fields {
        opcode: word_at(bytes, 0),
        destination: u64::from(word_at(bytes, 4)),
        source1: long_at(bytes, 8),
        source2: long_at(bytes, 16),
    }
}

// Of two words, as its definition has it.
fn long_at(bytes: &[u8], at: usize) -> u64
    requires { at + 8 ≤ length bytes.now }
    ensures { result ≡ long_at bytes.now at }
{
    u64::from(word_at(bytes, at)) + (u64::from(word_at(bytes, at + 4)) << 32)
}

// A slice and a place, as its definition has it.
fn word_at(bytes: &[u8], at: usize) -> u32
    requires { at + 4 ≤ length bytes.now }
    ensures { result ≡ word_at bytes.now at }
{
    layout::word(bytes[at], bytes[at + 1], bytes[at + 2], bytes[at + 3])
}

// Writes the fields to the first 24 bytes.
pub(crate) fn write_fields(f: Fields, out: &mut [u8])
    requires { 24 ≤ length out.old }
    ensures { out.new ≡ bytes_of f ++ drop 24 out.old }
{
    stores::put_word(out, 0, u64::from(f.opcode));
    stores::put_word(out, 4, f.destination);
    stores::put_word(out, 8, f.source1);
    stores::put_word(out, 12, f.source1 >> 32);
    stores::put_word(out, 16, f.source2);
    stores::put_word(out, 20, f.source2 >> 32);
}
