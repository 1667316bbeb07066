// The lines of a listing: a token record as text, and the first line.
#![tactic(auto)]

mod decimal;
pub mod first;
mod items;
mod lines;
mod nameable;
mod names;
mod operands;
mod printing;
mod settings;
mod stage;
mod text;

pub use first::first_line;
pub use lines::line;
