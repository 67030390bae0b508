//! Laws of what the engine writes.
//!
//! What a network's file means is given by a relation to networks, and two networks may differ in the order of a tree's couplings. That
//! order is seen nowhere: [`text_law`] says that what a job writes is a function of the bytes of its files and of its options.
#![tactic(auto)]

mod laws;

pub use laws::text_law;
