// Faults 1 to 8 of a program, and faults 9 to 19 of one token: the rules, and which comes first.
#![tactic(auto)]

mod header;
pub mod lawful;
pub mod profile;
mod rules;
mod tokens;

pub use header::header_fault;
