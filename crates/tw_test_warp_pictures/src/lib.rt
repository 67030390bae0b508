//! Tests of what is watched of a run of Time Warp, and of its picture: scripts on small networks, of which each step, rollback,
//! message and commit was worked out by hand.
#![tactic(auto)]

#[cfg(test)]
mod tests;
