// The whole text that agallist prints.
#![tactic(auto)]

mod opening;
mod reporting;
mod tokens;

pub use reporting::report;
