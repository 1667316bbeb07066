// A token record: what the 24 bytes of a token say. A `kind` is a register type, 0 to 6 in the format. In code it is written by its number, as the
// rules have it. Kinds and the settings of a sampler stay numbers: decode answers with each that has four bits, and encode is asked of any byte and refuses those above (`Decodes`, `Encodes`).
ghost use Rattle.std.specs.Prelude.{◌≡◌};
ghost use Rattle.layout.specs.Records.{as_direct};

// A register that is written, and the components that are: bit 0 of the mask is x, bit 3 is w.
#[derive(Clone, Copy)]
pub struct MaskedRegister {
    pub number: u16,
    pub mask: u8,
    pub kind: u8,
}

// A source with D = 0. The format ignores the index kind and the component; the record keeps them.
#[derive(Clone, Copy)]
pub struct DirectSource {
    pub number: u16,
    pub offset: u8,
    pub swizzle: u8,
    pub kind: u8,
    pub index_kind: u8,
    pub component: u8,
}

// A source with D = 1: the register of `kind` whose number is `offset` more than a component of the index register, whose own kind is
// `index_kind` and whose number is `number`. It has a direct source's fields and a type of its own, so that no rule on one of them can be asked
// of the other.
#[derive(Clone, Copy)]
pub struct IndexedSource {
    pub number: u16,
    pub offset: u8,
    pub swizzle: u8,
    pub kind: u8,
    pub index_kind: u8,
    pub component: u8,
}

// Its values, which are those that a direct source has.
impl From<IndexedSource> for DirectSource {
    ghost from_gives = { λ s r. r ≡ as_direct s };

    fn from(s: IndexedSource) -> DirectSource {
        DirectSource {
            number: s.number,
            offset: s.offset,
            swizzle: s.swizzle,
            kind: s.kind,
            index_kind: s.index_kind,
            component: s.component,
        }
    }
}

// The second source of tex. The bias counts eighths of a level of detail.
#[derive(Clone, Copy)]
pub struct Sampler {
    pub number: u16,
    pub bias: i8,
    pub kind: u8,
    pub dimension: u8,
    pub special: u8,
    pub wrap: u8,
    pub mipmap: u8,
    pub filter: u8,
}

#[derive(Clone, Copy)]
pub enum Operand {
    Unused,
    Direct(DirectSource),
    Indexed(IndexedSource),
    Sampler(Sampler),
}

#[derive(Clone, Copy)]
pub struct Token {
    pub opcode: u32,
    pub destination: Option<MaskedRegister>,
    pub source1: Operand,
    pub source2: Operand,
}
