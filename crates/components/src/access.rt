// Whether a token reads what is not written, from its fields and what its opcode holds.
ghost use Rattle.std.specs.Prelude.{◌≡◌};
ghost use Rattle.layout.specs.Records.{direct_of, indexed_of, token_of};
ghost use Rattle.components.specs.Reads.{mask_of, dimension_of};
ghost use Rattle.components.specs.computed.Access.{lacks_access, lacks_some, selected_access, index_access, access_of, shape_at, field_at, rows_at, components_at, direct_access_of};

use crate::written::Written;
use layout::fields::{Fields, RawToken};
use layout::opcodes::{OperandShape, Shape};
use layout::selection;

// One of a token's two sources.
#[derive(Clone, Copy, Debug, PartialEq, Eq)]
pub enum Source {
    First,
    Second,
}

// Whether a token reads through a source a temporary component that is not written. Callers name the source, so this is laid out for each
// where it is called; as a call it takes twice as many instructions.
#[tactic(auto, unfolding(layout::specs::Records::token_of))]
#[inline(always)]
pub fn reads_unwritten(current: Written, raw: RawToken, source: Source) -> bool
    ensures { result ≡ lacks_access current (access_of source (token_of raw.shape raw.fields)) }
{
    let field = source.field(raw.fields);
    match source.shape(raw.shape) {
        OperandShape::Source if layout::is_indexed(field) => current.lacks_index(field),
        OperandShape::Source => direct_unwritten(current, raw, source),
        OperandShape::Unused | OperandShape::Sampler => false,
    }
}

// What the opcode reads is asked only where the register is a temporary one, and lacks something.
#[tactic(auto, using(crate::proofs::AccessLaws::temporary, crate::proofs::AccessLaws::lacking), unfolding(layout::specs::Records::token_of))]
#[inline(always)]
fn direct_unwritten(current: Written, raw: RawToken, source: Source) -> bool
    ensures { result ≡ lacks_access current (direct_access_of source raw.shape raw.fields) }
{
    let field = source.field(raw.fields);
    let rows = source.rows(raw.fields.opcode);
    if !current.lacks_some(rows, field) {
        return false;
    }
    let direct = layout::unpack_direct(field);
    current.lacks(direct.number, rows, source.components(raw, direct.swizzle))
}

impl Source {
    // What the opcode has there.
    fn shape(self, shape: Shape) -> OperandShape
        ensures { result ≡ shape_at self shape }
    {
        match self {
            Source::First => shape.source1,
            Source::Second => shape.source2,
        }
    }

    fn field(self, fields: Fields) -> u64
        ensures { result ≡ field_at self fields }
    {
        match self {
            Source::First => fields.source1,
            Source::Second => fields.source2,
        }
    }

    // How many registers are read, from that of the source on.
    fn rows(self, opcode: u32) -> u8
        ensures { result ≡ rows_at self opcode }
    {
        match self {
            Source::First => 1,
            Source::Second => selection::rows2(opcode),
        }
    }

    // The components that are read of each, by a swizzle.
    #[tactic(auto, unfolding(layout::specs::Records::token_of))]
    fn components(self, raw: RawToken, swizzle: u8) -> u8
        ensures { result ≡ components_at self (token_of raw.shape raw.fields) swizzle }
    {
        let opcode = raw.fields.opcode;
        match self {
            Source::First => {
                let selectors = selection::selectors1(opcode, mask_of(raw), dimension_of(raw));
                selection::components_read(swizzle, selectors)
            }
            Source::Second => selection::components2(opcode, mask_of(raw), swizzle),
        }
    }
}

#[tactic(auto, unfolding(layout::specs::Records::token_of))]
fn mask_of(raw: RawToken) -> u8
    ensures { result ≡ mask_of (token_of raw.shape raw.fields).destination }
{
    let destination = layout::unpack_destination(raw.shape.destination, raw.fields.destination);
    destination.map_or(0, |register| register.mask)
}

// 0 of what has none, as its definition says; so it is of a mask.
#[tactic(auto, unfolding(layout::specs::Records::token_of))]
fn dimension_of(raw: RawToken) -> u8
    ensures { result ≡ dimension_of (token_of raw.shape raw.fields).source2 }
{
    match raw.shape.source2 {
        OperandShape::Sampler => {
            let sampler = layout::unpack_sampler(raw.fields.source2);
            sampler.dimension
        }
        OperandShape::Unused | OperandShape::Source => 0,
    }
}

// Three questions of a source's register, each with its own rows and components.
impl Written {
    // An indexed source reads one component of its index register.
    pub(crate) fn lacks_index(self, field: u64) -> bool
        ensures { result ≡ lacks_access self (index_access (indexed_of field)) }
    {
        let source = layout::unpack_indexed(field);
        let component = selection::chosen(1, source.component);
        (source.index_kind == 2) & self.lacks(source.number, 1, component)
    }

    // Whether a direct source is a temporary register that lacks a component which the selectors name.
    pub(crate) fn lacks_direct(self, field: u64, selectors: u8) -> bool
        ensures { result ≡ lacks_access self (selected_access selectors (direct_of field)) }
    {
        let source = layout::unpack_direct(field);
        let components = selection::named(source.swizzle, selectors);
        (source.kind == 2) & self.lacks(source.number, 1, components)
    }

    // The rows are the opcode's and the field is the token's, so they are handed in side by side. Whether a direct source is a temporary register
    // and one of the rows from it lacks a component, read or not. If none does, which components are read need not be asked.
    #[tactic(auto, unfolding(crate::specs::computed::Access::lacks_some))]
    pub(crate) fn lacks_some(self, rows: u8, field: u64) -> bool
        ensures { result ≡ lacks_some self rows (direct_of field) }
    {
        let source = layout::unpack_direct(field);
        (source.kind == 2) & self.lacks(source.number, rows, selection::ALL_FOUR)
    }
}
