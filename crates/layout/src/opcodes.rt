// The opcodes, what a token of each holds, and what else a rule says of some of them. Every set of opcodes stands here and in `selection`,
// and what a rule asks of an opcode asks its set: with a `matches!` beside a set, bits of it that nothing else needs are held to no list.
ghost use Rattle.std.specs.Prelude.{◌≡◌};
ghost use Rattle.layout.specs.Opcodes.{shape_of, is_added, is_fragment_only, is_three_wide, is_matrix, is_opener, flow_of};
ghost use Rattle.layout.specs.computed.Groups.{source_shape, second_shape, is_branch};
ghost use Rattle.layout.specs.computed.Sets.{among_of, ordinary_set};

// What stands in the field of a source.
#[derive(Clone, Copy, Debug, PartialEq, Eq)]
pub enum OperandShape {
    Unused,
    Source,
    Sampler,
}

// What a token with some opcode holds. An opcode that is not listed holds nothing: it too has a shape (`unlisted` in specs/Opcodes), so `listed`
// stands among the fields, and there is no Option round them.
#[derive(Clone, Copy)]
pub struct Shape {
    pub listed: bool,
    pub destination: bool,
    pub source1: OperandShape,
    pub source2: OperandShape,
}

// What a token does to branches.
#[derive(Clone, Copy, Debug, PartialEq, Eq)]
pub enum Flow {
    Plain,
    Opener,
    Els,
    Eif,
}

// Opcodes that a rule names. They are numbers and no enum, since the functions below answer every number that can stand in a token.
pub const NRM: u32 = 0x0e;

pub const CRS: u32 = 0x11;

pub const DP3: u32 = 0x12;

pub const DP4: u32 = 0x13;

pub const M33: u32 = 0x17;

pub const M44: u32 = 0x18;

pub const M34: u32 = 0x19;

pub const DDX: u32 = 0x1a;

pub const IFE: u32 = 0x1c;

pub const IFL: u32 = 0x1f;

pub const ELS: u32 = 0x20;

pub const EIF: u32 = 0x21;

pub const KIL: u32 = 0x27;

pub const TEX: u32 = 0x28;

// Sets of opcodes, bit by bit from mov, 00: those that are listed, that have a destination, a source 1, and a source 2 other than a sampler.
const LISTED: u64 = 0x3783_FFFF_FFFF;

const WITH_DESTINATION: u64 = 0x3700_0FFF_FFFF;

const WITH_SOURCE1: u64 = 0x3780_FFFF_FFFF;

const WITH_SOURCE2: u64 = 0x3600_F38E_08DE;

// ddx to eif, and ife to ifl.
const ADDED: u64 = (1 << (EIF + 1)) - (1 << DDX);

pub(crate) const OPENERS: u64 = (1 << (IFL + 1)) - (1 << IFE);

const FRAGMENT_ONLY: u64 = 1 << KIL | 1 << TEX;

const THREE_WIDE: u64 = 1 << NRM | 1 << CRS | 1 << M33 | 1 << M34;

const MATRICES: u64 = 1 << M33 | 1 << M44 | 1 << M34;

// All with a destination but matrices and those that only fragment programs have: one or two sources of one register, in every stage, and no
// rule of its own but 10 and 15. The set follows from the others, as does the next.
const ORDINARY: u64 = WITH_DESTINATION & !(MATRICES | FRAGMENT_ONLY);

// Those of them that edition 1 has.
const FIRST_ORDINARY: u64 = ORDINARY & !ADDED;

// Whether an opcode is in a set. As `opcode < 64 && ..` the check takes 3 instructions a token more: each set is then shifted by itself.
#[tactic(auto, unfolding(crate::specs::computed::Sets::among_of))]
pub fn among(set: u64, opcode: u32) -> bool
    ensures { result ≡ among_of set opcode }
{
    if 64 <= opcode {
        return false;
    }
    (set >> opcode) % 2 == 1
}

// The shape of every opcode number.
pub fn shape_of(opcode: u32) -> Shape
    ensures { result ≡ shape_of opcode }
{
    let listed = among(LISTED, opcode);
    let destination = among(WITH_DESTINATION, opcode);
    let source1 = source(among(WITH_SOURCE1, opcode));
    let source2 = second_source(opcode, among(WITH_SOURCE2, opcode));
    Shape {
        listed,
        destination,
        source1,
        source2,
    }
}

fn source(used: bool) -> OperandShape
    ensures { result ≡ source_shape used }
{
    if used {
        OperandShape::Source
    } else {
        OperandShape::Unused
    }
}

// Only tex has a sampler.
fn second_source(opcode: u32, used: bool) -> OperandShape
    ensures { result ≡ second_shape opcode used }
{
    match opcode {
        TEX => OperandShape::Sampler,
        _ => source(used),
    }
}

// What every opcode number does to branches.
#[tactic(auto, unfolding(crate::specs::Opcodes::flow_of))]
pub fn flow_of(opcode: u32) -> Flow
    ensures { result ≡ flow_of opcode }
{
    match opcode {
        IFE..=IFL => Flow::Opener,
        ELS => Flow::Els,
        EIF => Flow::Eif,
        _ => Flow::Plain,
    }
}

pub fn is_opener(opcode: u32) -> bool
    ensures { result ≡ is_opener opcode }
{
    among(OPENERS, opcode)
}

// Whether it is an opener, els or eif: they stand one after another.
pub fn is_branch(opcode: u32) -> bool
    ensures { result ≡ is_branch opcode }
{
    matches!(opcode, IFE..=EIF)
}

// The set of the ordinary opcodes of an edition.
pub fn ordinary(edition: u32) -> u64
    ensures { result ≡ ordinary_set edition }
{
    if edition == 1 {
        FIRST_ORDINARY
    } else {
        ORDINARY
    }
}

// Whether edition 1 does not have an opcode.
pub fn is_added(opcode: u32) -> bool
    ensures { result ≡ is_added opcode }
{
    among(ADDED, opcode)
}

// Whether only fragment programs have it.
pub fn is_fragment_only(opcode: u32) -> bool
    ensures { result ≡ is_fragment_only opcode }
{
    among(FRAGMENT_ONLY, opcode)
}

// Whether its result has no fourth component. As a `matches!` the check takes 6 instructions a token more: it asks this of each destination.
pub fn is_three_wide(opcode: u32) -> bool
    ensures { result ≡ is_three_wide opcode }
{
    among(THREE_WIDE, opcode)
}

pub fn is_matrix(opcode: u32) -> bool
    ensures { result ≡ is_matrix opcode }
{
    among(MATRICES, opcode)
}
