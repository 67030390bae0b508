//! The actions that a seed gives to an executive that is driven by hand.
//!
//! A [`Schedule`] draws one action after another from the numbers of a seed, whatever the executive has come to. It is exactly
//! the one that three numbers say to the executive as it stands (`action_drawn`).
#![tactic(auto)]

mod schedule;

pub use schedule::Schedule;
