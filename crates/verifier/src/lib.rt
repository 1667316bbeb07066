// The whole check of a program: accepted with its stage and token count, or the first fault with its token and part.
//
// Header, one-token step and end are functions of their own, so that a program can be judged token by token.
#![tactic(auto)]

pub mod answers;
mod checking;
mod glance;
mod places;
mod state;
mod step;

pub use checking::check;
