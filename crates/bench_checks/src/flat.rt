// A record written as bytes, so that a case can name any record. After a first byte that is not of the record: the opcode in four bytes; the
// destination as a tag (0 unused, 1 masked), number in two bytes, mask and kind; each source as a tag (0 unused, 1 direct, 2 indexed,
// 3 sampler), number in two bytes and seven values, in the order of the record.
ghost use Rattle.std.specs.Prelude.{◌≤◌, ◌≡◌, length};

use layout::record::{DirectSource, IndexedSource, MaskedRegister, Operand, Sampler, Token};

pub fn token(s: &[u8]) -> Token
    requires { 30 ≤ length s.now }
{
    let opcode = u32::from_le_bytes([s[1], s[2], s[3], s[4]]);
    let register = MaskedRegister {
        number: u16::from_le_bytes([s[6], s[7]]),
        mask: s[8],
        kind: s[9],
    };
    let destination = (s[5] != 0).then_some(register);
    let source1 = operand(&s[10..20]);
    let source2 = operand(&s[20..30]);
    Token {
        opcode,
        destination,
        source1,
        source2,
    }
}

fn operand(s: &[u8]) -> Operand
    requires { length s.now ≡ 10 }
{
    let number = u16::from_le_bytes([s[1], s[2]]);
    let source = IndexedSource {
        number,
        offset: s[3],
        swizzle: s[4],
        kind: s[5],
        index_kind: s[6],
        component: s[7],
    };
    match s[0] {
        1 => Operand::Direct(DirectSource::from(source)),
        2 => Operand::Indexed(source),
        3 => Operand::Sampler(Sampler {
            number,
            bias: s[3].cast_signed(),
            kind: s[4],
            dimension: s[5],
            special: s[6],
            wrap: s[7],
            mipmap: s[8],
            filter: s[9],
        }),
        _ => Operand::Unused,
    }
}
