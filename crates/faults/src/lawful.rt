// Lawful tokens: a few tests of their fields tell that they have none of faults 9 to 19. Each test says yes of lawful tokens alone, and of most
// of them; the others are judged rule by rule. What a test asks is joined by `&`, with no branch in between: a token's fields can't be guessed.
ghost use Rattle.std.specs.Prelude.{true, ◌≡◌};
ghost use Rattle.faults.specs.computed.LawfulTests.{usable_of, is_source, lawful_source_bits, is_lawful_destination, is_lawful_source, is_rightly_indexed, is_lawful_either, is_lawful, is_lawful_matrix, is_lawful_tex, is_lawful_kil, is_lawful_indexed, is_lawful_branch, LawfulWith, LawfulUnder};

use crate::profile::{Profile, count_at};
use crate::rules;
use layout::fields::Fields;
use layout::opcodes::OperandShape;
use layout::{bits, opcodes, selection};

// What a lawful token may use in an edition and a stage: the ordinary opcodes, and how many registers of each kind a source, a destination and an
// index may name, with the profile that they are of, which tex, kil and branches ask. A count has eight bits, and is 0 for a kind that may not be
// named there.
#[derive(Clone, Copy)]
pub struct Usable {
    pub profile: Profile,
    pub opcodes: u64,
    pub readable: u64,
    pub writable: u64,
    pub indexing: u64,
}

// The bits that a lawful operand may have. Kinds are below 8, and a direct source has neither an offset nor D. Of an indexed source's kind one
// bit is let through, and is_rightly_indexed asks that it is 1.
const DESTINATION_BITS: u64 = 0x070F_FFFF;

const SOURCE_BITS: u64 = 0x0003_0F07_FF00_FFFF;

const INDEXED_BITS: u64 = 0x8003_0701_FFFF_FFFF;

impl Usable {
    // A vertex program reads kinds 0, 1 and 2, which may be indices there, and writes 2, 3 and 4; a fragment program reads 1, 2 and 4 and writes
    // 2, 3 and 6. By name and no From: what may be used is looked up.
    #[tactic(auto, unfolding(crate::specs::computed::LawfulTests::usable_of))]
    pub fn of(profile: Profile) -> Usable
        ensures { result ≡ usable_of profile }
    {
        let counts = profile.counts;
        let opcodes = opcodes::ordinary(profile.edition);
        if profile.stage == 0 {
            return Usable {
                profile,
                opcodes,
                readable: counts & 0xFF_FFFF,
                writable: counts & 0xFF_FFFF_0000,
                indexing: counts & 0xFF_FFFF,
            };
        }
        Usable {
            profile,
            opcodes,
            readable: counts & 0xFF_00FF_FF00,
            writable: counts & 0xFF_0000_FFFF_0000,
            indexing: 0,
        }
    }

    // Whether a token with one of these opcodes and direct sources is surely lawful; false for all others.
    #[tactic(auto, using(crate::proofs::LawfulMeaning::means_lawful), unfolding(crate::specs::computed::LawfulTests::is_lawful))]
    pub fn is_lawful(self, f: Fields) -> bool
        ensures answer { result ≡ is_lawful self f }
        ensures lawful { result ≡ true → LawfulWith self f }
    {
        if !opcodes::among(self.opcodes, f.opcode) {
            return false;
        }
        let shape = opcodes::shape_of(f.opcode);
        self.is_lawful_destination(f)
            & self.is_lawful_source(true, 1, f.source1)
            & self.is_lawful_source(is_source(shape.source2), 1, f.source2)
    }

    // The same of m33, m44 and m34, whose source 2 has three or four rows and is not swizzled.
    #[tactic(auto, using(crate::proofs::LawfulMeaning::matrix_means_lawful), unfolding(crate::specs::computed::LawfulTests::is_lawful_matrix))]
    pub fn is_lawful_matrix(self, f: Fields) -> bool
        ensures answer { result ≡ is_lawful_matrix self f }
        ensures lawful { result ≡ true → LawfulWith self f }
    {
        let rows = selection::rows2(f.opcode);
        if rows == 1 {
            return false;
        }
        let matrix = layout::unpack_direct(f.source2);
        self.is_lawful_destination(f)
            & self.is_lawful_source(true, 1, f.source1)
            & self.is_lawful_source(true, rows, f.source2)
            & (matrix.swizzle == layout::XYZW)
    }

    // The same of tex, in a fragment program.
    #[tactic(auto, using(crate::proofs::LawfulMeaning::tex_means_lawful), unfolding(crate::specs::computed::LawfulTests::is_lawful_tex))]
    pub fn is_lawful_tex(self, f: Fields) -> bool
        ensures answer { result ≡ is_lawful_tex self f }
        ensures lawful { result ≡ true → LawfulUnder self f }
    {
        if f.opcode != opcodes::TEX {
            return false;
        }
        let sampler = layout::unpack_sampler(f.source2);
        self.is_lawful_destination(f)
            & self.is_lawful_source(true, 1, f.source1)
            & (self.profile.stage == 1)
            & !bits::is_stray(bits::operand_bits(OperandShape::Sampler), f.source2)
            & !self.profile.sampler_wrong(sampler)
    }

    // The same of kil, in a fragment program: a direct source whose selectors agree, and nothing else. A swizzle that repeats a selector is 0x55
    // times it.
    #[tactic(auto, using(crate::proofs::LawfulMeaning::kil_means_lawful), unfolding(crate::specs::computed::LawfulTests::is_lawful_kil))]
    pub fn is_lawful_kil(self, f: Fields) -> bool
        ensures answer { result ≡ is_lawful_kil self f }
        ensures lawful { result ≡ true → LawfulUnder self f }
    {
        if f.opcode != opcodes::KIL {
            return false;
        }
        let source = layout::unpack_direct(f.source1);
        (self.profile.stage == 1)
            & (f.destination == 0)
            & (f.source2 == 0)
            & self.is_lawful_source(true, 1, f.source1)
            & (source.swizzle % 4 * 0x55 == source.swizzle)
    }

    // The same where each source may be indexed or direct, of a matrix too.
    #[tactic(auto, using(crate::proofs::LawfulMeaning::indexed_means_lawful), unfolding(crate::specs::computed::LawfulTests::is_lawful_indexed))]
    pub fn is_lawful_indexed(self, f: Fields) -> bool
        ensures answer { result ≡ is_lawful_indexed self f }
        ensures lawful { result ≡ true → LawfulWith self f }
    {
        let rows = selection::rows2(f.opcode);
        if (rows == 1) & !opcodes::among(self.opcodes, f.opcode) {
            return false;
        }
        let shape = opcodes::shape_of(f.opcode);
        let second = layout::unpack_direct(f.source2);
        self.is_lawful_destination(f)
            & self.is_lawful_either(true, 1, f.source1)
            & self.is_lawful_either(is_source(shape.source2), rows, f.source2)
            & ((rows == 1) | (second.swizzle == layout::XYZW))
    }

    // The same of a branch, in an edition that has them: an opener, each of whose sources may be indexed or direct, els or eif.
    #[tactic(auto, using(crate::proofs::LawfulMeaning::branch_means_lawful), unfolding(crate::specs::computed::LawfulTests::is_lawful_branch))]
    pub fn is_lawful_branch(self, f: Fields) -> bool
        ensures answer { result ≡ is_lawful_branch self f }
        ensures lawful { result ≡ true → LawfulUnder self f }
    {
        if !opcodes::is_branch(f.opcode) {
            return false;
        }
        let bare = (self.profile.edition != 1) & (f.destination == 0);
        if opcodes::is_opener(f.opcode) {
            return bare
                & self.is_lawful_either(true, 1, f.source1)
                & self.is_lawful_either(true, 1, f.source2);
        }
        bare & (f.source1 == 0) & (f.source2 == 0)
    }

    #[tactic(auto, unfolding(crate::specs::computed::LawfulTests::is_lawful_destination))]
    fn is_lawful_destination(self, f: Fields) -> bool
        ensures { result ≡ is_lawful_destination self.writable f.opcode f.destination }
    {
        let r = layout::unpack_register(f.destination);
        !bits::is_stray(DESTINATION_BITS, f.destination)
            & (r.number < count_at(self.writable, r.kind))
            & !rules::is_wrong_mask(f.opcode, r.mask)
    }

    // A source that is not used is 0. `used` and `rows` are arguments of its definition, on which those of the tests rest.
    #[tactic(auto, unfolding(crate::specs::computed::LawfulTests::is_lawful_source))]
    fn is_lawful_source(self, used: bool, rows: u8, field: u64) -> bool
        ensures { result ≡ is_lawful_source self.readable used rows field }
    {
        let s = layout::unpack_direct(field);
        let end = s.number as u32 + rows as u32;
        let count = count_at(self.readable, s.kind);
        !bits::is_stray(source_bits(used), field) & (!used | (end <= count as u32))
    }

    // A source that is indexed, or direct, or not used.
    #[tactic(auto, unfolding(crate::specs::computed::LawfulTests::is_lawful_either))]
    fn is_lawful_either(self, used: bool, rows: u8, field: u64) -> bool
        ensures { result ≡ is_lawful_either self used rows field }
    {
        if layout::is_indexed(field) {
            return used & self.is_rightly_indexed(rows, field);
        }
        self.is_lawful_source(used, rows, field)
    }

    #[tactic(auto, unfolding(crate::specs::computed::LawfulTests::is_rightly_indexed))]
    fn is_rightly_indexed(self, rows: u8, field: u64) -> bool
        ensures { result ≡ is_rightly_indexed self rows field }
    {
        let s = layout::unpack_indexed(field);
        let end = s.offset as u16 + rows as u16;
        !bits::is_stray(INDEXED_BITS, field)
            & (s.kind == 1)
            & (s.number < count_at(self.indexing, s.index_kind))
            & (end <= count_at(self.readable, 1))
    }
}

// The processor chooses here and guesses nothing, as in `only` of `components`.
fn source_bits(used: bool) -> u64
    ensures { result ≡ lawful_source_bits used }
{
    if used { SOURCE_BITS } else { 0 }
}

fn is_source(shape: OperandShape) -> bool
    ensures { result ≡ is_source shape }
{
    matches!(shape, OperandShape::Source)
}
