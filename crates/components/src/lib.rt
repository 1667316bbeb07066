// Components of temporary registers: which of them a token reads and writes, and sets of those that are written.
#![tactic(auto)]

pub mod access;
pub mod quick;
pub mod written;
