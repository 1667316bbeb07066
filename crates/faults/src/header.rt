// Faults 1 to 8, of the program as a whole: Err is the first. From 3 on 7 bytes are there; this is asked in two crates, and a type for it
// would be made once and taken apart at once.
ghost use Rattle.std.specs.Prelude.{◌≡◌, ◌≤◌, length};
ghost use Rattle.layout.specs.Layout.{word_at};
ghost use Rattle.bytecode.specs.Decode.{outcome};
ghost use Rattle.faults.specs.Rules.{edition_unknown};
ghost use Rattle.faults.specs.computed.Header.{header_fault, rest_fault};

use bytecode::answers::Refusal;

#[tactic(auto, unfolding(crate::specs::computed::Header::header_fault, crate::specs::computed::Header::rest_fault))]
pub fn header_fault(edition: u32, bytes: &[u8]) -> Result<(), Refusal>
    ensures { result ≡ outcome (header_fault edition bytes.now) }
{
    if edition_unknown(edition) {
        return Err(bytecode::refusal(1, 0, 0));
    }
    if bytes.len() < 7 {
        return Err(bytecode::refusal(2, 0, 0));
    }
    if bytes[0] != 0xa0 {
        return Err(bytecode::refusal(3, 0, 0));
    }
    if version(bytes) != 1 {
        return Err(bytecode::refusal(4, 0, 0));
    }
    rest_fault(edition, bytes)
}

fn edition_unknown(edition: u32) -> bool
    ensures { result ≡ edition_unknown edition }
{
    !matches!(edition, 1 | 2 | 3)
}

// The word at 1; what reads a word at a place is private to bytecode.
fn version(bytes: &[u8]) -> u32
    requires { 7 ≤ length bytes.now }
    ensures { result ≡ word_at bytes.now 1 }
{
    layout::word(bytes[1], bytes[2], bytes[3], bytes[4])
}

// 5 to 8.
#[tactic(auto, unfolding(crate::specs::computed::Header::rest_fault))]
fn rest_fault(edition: u32, bytes: &[u8]) -> Result<(), Refusal>
    requires { 7 ≤ length bytes.now }
    ensures { result ≡ outcome (rest_fault edition bytes.now) }
{
    if bytes[5] != 0xa1 {
        return Err(bytecode::refusal(5, 0, 0));
    }
    if 1 < bytes[6] {
        return Err(bytecode::refusal(6, 0, 0));
    }
    let size = bytes.len() - 7;
    if size % 24 != 0 {
        return Err(bytecode::refusal(7, 0, 0));
    }
    if registers::token_limit(edition) < size / 24 {
        return Err(bytecode::refusal(8, 0, 0));
    }
    Ok(())
}
