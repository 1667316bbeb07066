// The token reader: token after token of a lent program.
#![tactic(auto)]

pub mod answers;
mod reading;
mod steps;

pub use reading::{open, read};
pub use steps::{read_at, token_bytes};
