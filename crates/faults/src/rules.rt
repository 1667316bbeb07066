// Rules 10, 11 and 14 to 19 of one token.
ghost use Rattle.std.specs.Prelude.{◌≡◌, ◌||◌, ◌&&◌, eqb};
ghost use Rattle.layout.specs.Opcodes.{is_three_wide};
ghost use Rattle.layout.specs.Swizzles.{bit_of};
ghost use Rattle.faults.specs.computed.Profile.{count_in};
ghost use Rattle.faults.specs.Rules.{opcode_too_new, opcode_not_for_stage, destination_wrong, mask_wrong, indexed_wrong, direct_wrong, selectors_differ, matrix_swizzled, sampler_wrong};

use crate::profile::Profile;
use layout::opcodes;
use layout::record::{DirectSource, IndexedSource, MaskedRegister, Sampler};

// The rules that ask what an edition gives a stage, each a function under its number: 10 and 11 look alike, and are two rules.
impl Profile {
    // 10
    pub(crate) fn opcode_too_new(self, opcode: u32) -> bool
        ensures { result ≡ opcode_too_new self.edition opcode }
    {
        self.edition == 1 && opcodes::is_added(opcode)
    }

    // 11
    pub(crate) fn opcode_not_for_stage(self, opcode: u32) -> bool
        ensures { result ≡ opcode_not_for_stage self.stage opcode }
    {
        self.stage == 0 && opcodes::is_fragment_only(opcode)
    }

    // 14
    pub(crate) fn destination_wrong(self, destination: Option<MaskedRegister>) -> bool
        ensures { result ≡ destination_wrong (count_in self) self.stage destination }
    {
        destination.is_some_and(|r| {
            !registers::is_writable(r.kind, self.stage) || self.count_of(r.kind) <= r.number
        })
    }

    // 16
    pub(crate) fn indexed_wrong(self, rows: u8, s: IndexedSource) -> bool
        ensures { result ≡ indexed_wrong (count_in self) self.stage rows s }
    {
        let end = s.offset as u16 + rows as u16;
        self.stage != 0
            || s.kind != 1
            || 2 < s.index_kind
            || self.count_of(s.index_kind) <= s.number
            || self.count_of(1) < end
    }

    // 17
    pub(crate) fn direct_wrong(self, rows: u8, s: DirectSource) -> bool
        ensures { result ≡ direct_wrong (count_in self) self.stage rows s }
    {
        let end = s.number as u32 + rows as u32;
        !registers::is_readable(s.kind, self.stage)
            || (self.count_of(s.kind) as u32) < end
            || s.offset != 0
    }

    // 19
    pub(crate) fn sampler_wrong(self, s: Sampler) -> bool
        ensures { result ≡ sampler_wrong (count_in self) s }
    {
        (self.count_of(5) <= s.number) | layout::settings_wrong(s)
    }
}

// 15
pub(crate) fn mask_wrong(opcode: u32, destination: Option<MaskedRegister>) -> bool
    ensures { result ≡ mask_wrong opcode destination }
{
    destination.is_some_and(|r| is_wrong_mask(opcode, r.mask))
}

// 15 of a mask that stands.
pub(crate) fn is_wrong_mask(opcode: u32, mask: u8) -> bool
    ensures { result ≡ (eqb mask 0 || (is_three_wide opcode && bit_of mask 3)) }
{
    (mask == 0) | (opcodes::is_three_wide(opcode) & layout::mask_has(mask, 3))
}

// 18, of source 1
pub(crate) fn selectors_differ(opcode: u32, swizzle: u8) -> bool
    ensures { result ≡ selectors_differ opcode swizzle }
{
    opcode == opcodes::KIL && !layout::selectors_agree(swizzle)
}

// 18, of source 2
pub(crate) fn matrix_swizzled(opcode: u32, swizzle: u8) -> bool
    ensures { result ≡ matrix_swizzled opcode swizzle }
{
    opcodes::is_matrix(opcode) && swizzle != layout::XYZW
}
