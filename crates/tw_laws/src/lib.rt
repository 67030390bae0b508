//! The hard theorems, over the definitions of tw_theory alone: whatever list of actions an executive takes, what
//! each component has committed is what the sequential abstract simulator does up to its commit line, and what was
//! done since a mark can be taken back.
//!
//! | Module | Says |
//! |---|---|
//! | [`headline`] | the theorem of the whole, both halves in one statement |
//! | [`soundness`] | the start is sound, and every action, rewind and list of actions keeps it so |
//! | [`commitment`] | columns are the sequential records; global virtual time is the exact least and never falls; no line passes the fault |
//! | [`inversion`] | steps and a rewind restore everything, with one anti-message for each message sent |
//! | [`endings`] | a sweep ends, and what it does; what the state of a run says is so; columns merge to the one sequential trace; the outcome |
//! | [`cancellation`] | the way of cancelling stays as it began |
//! | [`standing`] | when a component's next step can be made, and what it may receive |
//! | [`chains`] | a chain is what its component does next; installing one is so many steps |
//! | [`memory`] | how many nodes an action needs; what stays true where actions are left undone |
//! | [`board`] | what the board shows was committed |
//! | [`couplings`] | in which order a network's couplings stand is seen nowhere |
//! | [`applied`] | all of it on concrete networks |
//!
//! The functions do nothing: their contracts are the laws, for states of any type, so for every model. The
//! statements are in `specs/`. The proofs are in `proofs/`: `History/` has the law of committed history (both
//! sides are run by a clock over stamps, and compared stamp by stamp), the other files the keeping of soundness,
//! action by action, and what follows.
#![tactic(auto)]

pub mod applied;
pub mod board;
pub mod cancellation;
pub mod chains;
pub mod commitment;
pub mod couplings;
pub mod endings;
pub mod headline;
pub mod inversion;
pub mod memory;
pub mod soundness;
pub mod standing;
