// The values of a destination or a source, whatever its kind: what the flat form has a place for.
ghost use Rattle.std.specs.Prelude.{◌≡◌};
ghost use Rattle.layout.specs.Records.{sampler_of};
ghost use Rattle.agal_c.specs.Values.{sampler_values, destination_from, indexed_from, sampler_from, operand_from};

use layout::record::{IndexedSource, MaskedRegister, Operand, Sampler};

// `form` tells the cases of the record apart: 0 unused, 1 register or direct source, 2 indexed source, 3 sampler. The C header calls it the
// kind, a word that is a register's type here. The values after the number stand in the order of the record; those that a case does not
// have are 0. They are seven fields, as the definitions of the flat form have them (`values` in specs/Values.antt): an array would be read
// by seven indices in their place, which is no plainer.
#[derive(Clone, Copy)]
pub(crate) struct Values {
    pub form: u8,
    pub number: u16,
    pub first: u8,
    pub second: u8,
    pub third: u8,
    pub fourth: u8,
    pub fifth: u8,
    pub sixth: u8,
    pub seventh: u8,
}

pub(crate) fn sampler_values(field: u64) -> Values
    ensures { result ≡ sampler_values (sampler_of field) }
{
    let s = layout::unpack_sampler(field);
    Values {
        form: 3,
        number: s.number,
        first: bytecode::unsigned_byte(s.bias),
        second: s.kind,
        third: s.dimension,
        fourth: s.special,
        fifth: s.wrap,
        sixth: s.mipmap,
        seventh: s.filter,
    }
}

// By name and no From: the same values make a destination or an operand, as their place in the flat form tells. A destination has two values after
// its number.
pub(crate) fn destination_from(v: Values) -> Option<MaskedRegister>
    ensures { result ≡ destination_from v }
{
    match v.form {
        0 => None,
        _ => Some(MaskedRegister {
            number: v.number,
            mask: v.first,
            kind: v.second,
        }),
    }
}

pub(crate) fn operand_from(v: Values) -> Operand
    ensures { result ≡ operand_from v }
{
    match v.form {
        0 => Operand::Unused,
        1 => Operand::Direct(indexed_from(v).into()),
        2 => Operand::Indexed(indexed_from(v)),
        _ => Operand::Sampler(sampler_from(v)),
    }
}

fn indexed_from(v: Values) -> IndexedSource
    ensures { result ≡ indexed_from v }
{
    IndexedSource {
        number: v.number,
        offset: v.first,
        swizzle: v.second,
        kind: v.third,
        index_kind: v.fourth,
        component: v.fifth,
    }
}

fn sampler_from(v: Values) -> Sampler
    ensures { result ≡ sampler_from v }
{
    Sampler {
        number: v.number,
        bias: layout::signed_byte(v.first),
        kind: v.second,
        dimension: v.third,
        special: v.fourth,
        wrap: v.fifth,
        mipmap: v.sixth,
        filter: v.seventh,
    }
}
