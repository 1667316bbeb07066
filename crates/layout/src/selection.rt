// What an opcode reads of its sources: the selectors that it uses, the rows of source 2, and the components of each row. A set of selectors or of
// components is four bits: bit 0 is the first selector, or x.
ghost use Rattle.std.specs.Prelude.{◌≡◌};
ghost use Rattle.layout.specs.Opcodes.{row_count2};
ghost use Rattle.layout.specs.computed.Sets.{chosen_set, named_set, coordinate_set, selector_set1, selector_set2, read_set2};

use crate::opcodes::{CRS, DP3, DP4, KIL, M33, M34, M44, NRM, OPENERS, TEX};
use crate::{opcodes, swizzles};

// Sets of opcodes, bit by bit: those that read a source by its first three selectors, those that read it by all four, and all that do not read
// source 1 by the mask. They are asked of most tokens. A `match` on the opcode in their place was tried: 15 instructions in place of 9, and
// twice as many branches guessed wrong.
const BY_THREE_OF_SOURCE1: u64 = 1 << NRM | 1 << CRS | 1 << DP3 | 1 << M33;

const BY_THREE_OF_SOURCE2: u64 = 1 << CRS | 1 << DP3;

const BY_FOUR_OF_SOURCE1: u64 = 1 << DP4 | 1 << M44 | 1 << M34 | OPENERS;

const BY_FOUR_OF_SOURCE2: u64 = 1 << DP4 | OPENERS;

const NOT_BY_MASK_OF_SOURCE1: u64 = BY_THREE_OF_SOURCE1 | BY_FOUR_OF_SOURCE1 | 1 << KIL | 1 << TEX;

pub const FIRST: u8 = 1;

const FIRST_TWO: u8 = 3;

const FIRST_THREE: u8 = 7;

pub const ALL_FOUR: u8 = 15;

// The selectors of source 1 that an opcode reads by, as a set; most opcodes read by the mask.
pub fn selectors1(opcode: u32, mask: u8, dimension: u8) -> u8
    ensures { result ≡ selector_set1 opcode mask dimension }
{
    if !opcodes::among(NOT_BY_MASK_OF_SOURCE1, opcode) {
        return mask;
    }
    if opcodes::among(BY_THREE_OF_SOURCE1, opcode) {
        return FIRST_THREE;
    }
    if opcodes::among(BY_FOUR_OF_SOURCE1, opcode) {
        return ALL_FOUR;
    }
    match opcode {
        KIL => FIRST,
        TEX => coordinates(dimension),
        _ => mask,
    }
}

// The selectors that tex uses for a dimension.
pub fn coordinates(dimension: u8) -> u8
    ensures { result ≡ coordinate_set dimension }
{
    match dimension {
        0 => FIRST_TWO,
        _ => FIRST_THREE,
    }
}

// The selectors of source 2 that an opcode reads by: not those of source 1 with other sets, which has kil and tex besides.
pub fn selectors2(opcode: u32, mask: u8) -> u8
    ensures { result ≡ selector_set2 opcode mask }
{
    if opcodes::among(BY_THREE_OF_SOURCE2, opcode) {
        FIRST_THREE
    } else if opcodes::among(BY_FOUR_OF_SOURCE2, opcode) {
        ALL_FOUR
    } else {
        mask
    }
}

// How many registers source 2 spans.
#[tactic(auto, unfolding(crate::specs::Opcodes::row_count2))]
pub fn rows2(opcode: u32) -> u8
    ensures { result ≡ row_count2 opcode }
{
    match opcode {
        M33 | M34 => 3,
        M44 => 4,
        _ => 1,
    }
}

// The components that are read of each row of source 2: of m33 x, y and z, of the other matrices all four, whatever the swizzle.
#[tactic(auto, unfolding(crate::specs::computed::Sets::read_set2))]
pub fn components2(opcode: u32, mask: u8, swizzle: u8) -> u8
    ensures { result ≡ read_set2 opcode mask swizzle }
{
    match opcode {
        M33 => FIRST_THREE,
        M44 | M34 => ALL_FOUR,
        _ => components_read(swizzle, selectors2(opcode, mask)),
    }
}

// The components that a swizzle names by a set of selectors; where it is all four, the table has them. The table is laid out anew at each
// use, so what is asked of every token asks `named`.
#[tactic(auto, using(crate::proofs::SelectionLaws::all_named))]
pub fn components_read(swizzle: u8, selectors: u8) -> u8
    ensures { result ≡ named_set swizzle selectors }
{
    match selectors {
        ALL_FOUR => swizzles::components(swizzle),
        _ => named(swizzle, selectors),
    }
}

// The same, selector by selector: a line for each, joined with no branch.
#[tactic(auto, unfolding(crate::specs::computed::Sets::named_set))]
pub fn named(swizzle: u8, selectors: u8) -> u8
    ensures { result ≡ named_set swizzle selectors }
{
    let x = chosen(selectors, swizzle);
    let y = chosen(selectors / 2, swizzle / 4);
    let z = chosen(selectors / 4, swizzle / 16);
    let w = chosen(selectors / 8, swizzle / 64);
    (x | y) | (z | w)
}

// The set of one component, or the empty set where the lowest bit of the selectors is 0.
pub fn chosen(selectors: u8, component: u8) -> u8
    ensures { result ≡ chosen_set selectors component }
{
    (selectors % 2) << (component % 4)
}
