// How many registers of each kind a program has, which kinds it reads and writes, and how many tokens it may hold.
//
// A kind is a register type: 0 attribute, 1 constant, 2 temporary, 3 output, 4 varying, 5 sampler, 6 fragment register. A stage is 0 for a
// vertex program and 1 for a fragment program. An edition is 1, 2 or 3. Every function answers every number: what the format does not have
// counts 0 and is neither read nor written. So stages, editions and kinds are numbers here (`count_of`, `limit_of`,
// `is_readable` and `is_writable` say what each gives), and in the public calls that hand them on.
#![tactic(auto)]

mod counts;
mod limits;
mod uses;

pub use counts::register_counts;
pub use limits::token_limit;
pub use uses::{is_readable, is_writable};
