// The published format of a token: opcodes and what each takes, the bits of each field, swizzles, the token record.
#![tactic(auto)]

pub mod bits;
pub mod fields;
pub mod opcodes;
pub mod record;
mod samplers;
pub mod selection;
mod swizzles;
mod unpack;

pub use fields::word;
pub use samplers::settings_wrong;
pub use swizzles::{XYZW, components, mask_has, selector, selectors_agree};
pub use unpack::{
    is_indexed, signed_byte, unpack_destination, unpack_direct, unpack_indexed, unpack_operand,
    unpack_register, unpack_sampler,
};
