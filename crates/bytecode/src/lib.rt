// A token's 24 bytes and its record: decode, encode and bias.
#![tactic(auto)]

pub mod answers;
mod biases;
mod decoding;
mod encoding;
mod fields;
mod fits;
mod pack;
mod refusals;
mod stores;

pub use biases::bias;
pub use decoding::{decode, fault_of, is_clean};
pub use encoding::encode;
pub use fields::fields_of;
pub use fits::encodable;
pub use pack::unsigned_byte;
pub use refusals::refusal;
pub use stores::put_word;
