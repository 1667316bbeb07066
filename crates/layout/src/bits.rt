// The bits of each field of a token. A field is a little-endian number: the opcode and the destination of 4 bytes, a source or a sampler
// of 8. Bits that no row here names are undefined and must be 0.
ghost use Rattle.std.specs.Prelude.{◌≡◌, ◌+◌, ◌≤◌, ◌<◌};
ghost use Rattle.layout.specs.Layout.{value_at, destination_bits, operand_bits, is_stray};

use crate::opcodes::OperandShape;

// Where a value stands in its field: its first bit and how many bits it has.
// No ghost field bounds the two: whoever builds one would be asked for more than before.
#[derive(Clone, Copy)]
pub struct Bits {
    pub first: u32,
    pub width: u32,
}

impl Bits {
    // The value that a field has there.
    pub(crate) fn value_of(self, field: u64) -> u64
        requires within { self.first < 64 }
        requires narrow { self.width < 64 }
        ensures { result ≡ value_at self.first self.width field }
    {
        (field >> self.first) % (1 << self.width)
    }

    // The same where it is no wider than a byte.
    pub(crate) fn byte_of(self, field: u64) -> u8
        requires within { self.first < 64 }
        requires narrow { self.width ≤ 8 }
        ensures { result ≡ value_at self.first self.width field }
    {
        self.value_of(field) as u8
    }
}

// The number, in every field.
pub const NUMBER: Bits = Bits {
    first: 0,
    width: 16,
};

// Of a destination: ----TTTT----MMMMNNNNNNNNNNNNNNNN
pub const MASK: Bits = Bits {
    first: 16,
    width: 4,
};

pub const MASKED_KIND: Bits = Bits {
    first: 24,
    width: 4,
};

// Of a source: D-------------QQ----IIII----TTTTSSSSSSSSOOOOOOOONNNNNNNNNNNNNNNN
pub const OFFSET: Bits = Bits {
    first: 16,
    width: 8,
};

pub const SWIZZLE: Bits = Bits {
    first: 24,
    width: 8,
};

pub const KIND: Bits = Bits {
    first: 32,
    width: 4,
};

pub const INDEX_KIND: Bits = Bits {
    first: 40,
    width: 4,
};

pub const COMPONENT: Bits = Bits {
    first: 48,
    width: 2,
};

pub const INDIRECT: Bits = Bits {
    first: 63,
    width: 1,
};

// Of a sampler: FFFFMMMMWWWWSSSSDDDD--------TTTT--------BBBBBBBBNNNNNNNNNNNNNNNN
pub const BIAS: Bits = Bits {
    first: 16,
    width: 8,
};

pub const DIMENSION: Bits = Bits {
    first: 44,
    width: 4,
};

pub const SPECIAL: Bits = Bits {
    first: 48,
    width: 4,
};

pub const WRAP: Bits = Bits {
    first: 52,
    width: 4,
};

pub const MIPMAP: Bits = Bits {
    first: 56,
    width: 4,
};

pub const FILTER: Bits = Bits {
    first: 60,
    width: 4,
};

const DESTINATION_BITS: u64 = 0x0F0F_FFFF;

const SOURCE_BITS: u64 = 0x8003_0F0F_FFFF_FFFF;

const SAMPLER_BITS: u64 = 0xFFFF_F00F_00FF_FFFF;

// The defined bits of a destination, none where it is unused. An `if` of one line, as in three other places: a function for all would be no
// shorter.
pub fn destination_bits(used: bool) -> u64
    ensures { result ≡ destination_bits used }
{
    if used { DESTINATION_BITS } else { 0 }
}

// The defined bits of a source's field.
pub fn operand_bits(shape: OperandShape) -> u64
    ensures { result ≡ operand_bits shape }
{
    match shape {
        OperandShape::Unused => 0,
        OperandShape::Source => SOURCE_BITS,
        OperandShape::Sampler => SAMPLER_BITS,
    }
}

// Whether a field has a bit that is not among its defined ones.
pub fn is_stray(defined: u64, field: u64) -> bool
    ensures { result ≡ is_stray defined field }
{
    field & defined != field
}
