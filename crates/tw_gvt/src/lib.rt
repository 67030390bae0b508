//! Global virtual time: from when on anything can still change (Jefferson 1985).
//!
//! [`least_of`] is the least of all next stamps and of all that is in transit or owed, positive and anti: no rollback ever reaches
//! before it. It looks at each process and each item once, and takes no memory.
#![tactic(auto)]

mod least;

pub use least::least_of;
