//! The sequential abstract simulator (Chow and Zeigler 1994) all at once, which tests compare with; `twarp seq` writes round by round.
//!
//! - [`simulate`] runs a network up to an end tick and answers a [`Seq`]: the records in trace order and the limit
//!   fault that ended the run, if there was one. Both are those of the definition, `sequential` of tw_theory.
//! - [`outcome`] gives the fault alone, and keeps no record: it is [`tw_listen::outcome_telling`] to which nobody listens.
//!
//! The rounds are those of `tw_rounds`, which `twarp seq` makes too, by `tw_record_lines`.
//! A call is refused ([`tw_rounds::SeqRefused`]) for an end tick that no stamp has, and for want of memory.
#![tactic(auto)]

mod simulator;

pub use simulator::{Seq, outcome, simulate};
