//! What the programs share that have each request for memory refused in its turn: what they tell, in room that is made at the
//! start, and sums over contents, which take no memory.
//!
//! Two contents are held to be the same where their [`Sum`]s are. [`Told::compare`] tells where a call that was refused changed
//! something.
#![tactic(auto)]

mod process;
mod sum;
mod told;

pub use process::{add_items, add_process, add_records};
pub use sum::Sum;
pub use told::Told;
