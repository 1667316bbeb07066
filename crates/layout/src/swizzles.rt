// The components of a mask, and those that a swizzle names. A component is 0 for x to 3 for w, a number, since
// every number is answered; a set of them has 1 for x, 2 for y, 4 for z and
// 8 for w, as a mask does.
ghost use Rattle.std.specs.Prelude.{◌≡◌};
ghost use Rattle.layout.specs.Swizzles.{bit_of, selector, components_of, selectors_agree};

// The swizzle that names each component in its place.
pub const XYZW: u8 = 0xe4;

// Whether a mask has a component: bit 0 is x, bit 3 is w. `opcodes::among` asks the same of 64 bits: by it the mask and the
// component would be widened first, for no line less.
pub fn mask_has(mask: u8, component: u8) -> bool
    ensures { result ≡ bit_of mask component }
{
    component < 8 && (mask >> component) % 2 == 1
}

// The component that a selector of a swizzle names: bits 0-1 are the first selector, bits 6-7 the last.
pub fn selector(swizzle: u8, place: u8) -> u8
    ensures { result ≡ selector swizzle place }
{
    if 4 <= place {
        return 0;
    }
    (swizzle >> (2 * place)) % 4
}

// The named components of every swizzle byte, as a set.
const COMPONENTS: [u8; 256] = [
    1, 3, 5, 9, 3, 3, 7, 11, 5, 7, 5, 13, 9, 11, 13, 9, 3, 3, 7, 11, 3, 3, 7, 11, 7, 7, 7, 15, 11,
    11, 15, 11, 5, 7, 5, 13, 7, 7, 7, 15, 5, 7, 5, 13, 13, 15, 13, 13, 9, 11, 13, 9, 11, 11, 15,
    11, 13, 15, 13, 13, 9, 11, 13, 9, 3, 3, 7, 11, 3, 3, 7, 11, 7, 7, 7, 15, 11, 11, 15, 11, 3, 3,
    7, 11, 3, 2, 6, 10, 7, 6, 6, 14, 11, 10, 14, 10, 7, 7, 7, 15, 7, 6, 6, 14, 7, 6, 6, 14, 15, 14,
    14, 14, 11, 11, 15, 11, 11, 10, 14, 10, 15, 14, 14, 14, 11, 10, 14, 10, 5, 7, 5, 13, 7, 7, 7,
    15, 5, 7, 5, 13, 13, 15, 13, 13, 7, 7, 7, 15, 7, 6, 6, 14, 7, 6, 6, 14, 15, 14, 14, 14, 5, 7,
    5, 13, 7, 6, 6, 14, 5, 6, 4, 12, 13, 14, 12, 12, 13, 15, 13, 13, 15, 14, 14, 14, 13, 14, 12,
    12, 13, 14, 12, 12, 9, 11, 13, 9, 11, 11, 15, 11, 13, 15, 13, 13, 9, 11, 13, 9, 11, 11, 15, 11,
    11, 10, 14, 10, 15, 14, 14, 14, 11, 10, 14, 10, 13, 15, 13, 13, 15, 14, 14, 14, 13, 14, 12, 12,
    13, 14, 12, 12, 9, 11, 13, 9, 11, 10, 14, 10, 13, 14, 12, 12, 9, 10, 12, 8,
];

pub fn components(swizzle: u8) -> u8
    ensures { result ≡ components_of swizzle }
{
    COMPONENTS[swizzle as usize]
}

// Whether all four selectors name one component: the set that they name has one member.
#[tactic(auto, using(crate::proofs::SelectionLaws::power_named))]
pub fn selectors_agree(swizzle: u8) -> bool
    ensures { result ≡ selectors_agree swizzle }
{
    components(swizzle).is_power_of_two()
}
