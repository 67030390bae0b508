//! The definitions of the whole theory: what a Parallel DEVS network is, what the sequential abstract simulator
//! does, what a process holds, what each action of the executive does, and when an executive is sound. Every
//! contract above cites these definitions and no other.
//!
//! The crate runs nothing. Its definitions are in `specs/`, to be read in this order:
//!
//! | File | Defines | After |
//! |---|---|---|
//! | `Network` | networks, couplings, routing, what fits | Chow and Zeigler 1994 |
//! | `Bundles` | lists of messages and of items in transit | Jefferson 1985 |
//! | `Transitions` | what a component does at a stamp: its output, its transition | Chow and Zeigler 1994 |
//! | `Simulator` | configurations, rounds, the sequential run | Chow and Zeigler 1994 |
//! | `LocalRun` | the steps of one component by itself | Chow and Zeigler 1994 |
//! | `Contents` | what a process holds; steps, rollback, receipts, both ways of cancelling | Jefferson 1985 |
//! | `Executive` | the actions, global virtual time, lists of actions | Jefferson 1985; Carothers, Perumalla and Fujimoto 1999 |
//! | `Marks` | marks and rewinding | |
//! | `Traces` | the order of a trace, and merged columns | |
//! | `Exchange` | which component is given out next; a sweep as a list of actions | |
//! | `Outcomes` | how a run has ended, and the trace of its outcome | |
//! | `Balance` | what was sent is somewhere | |
//! | `Soundness` | the start, and what every action keeps | |
//! | `Standing` | when a component's next step can be made | |
//! | `Chains` | steps of a component, worked out apart from its process | |
//! | `Memory` | the nodes that a process holds and an action needs; actions left undone | |
//! | `Installing` | which steps of a chain its process makes | |
//! | `Board` | the numbers that are posted and seen while a run goes on | |
//! | `Laws` | what follows from the definitions alone | |
//! | `Example..` | small networks, their traces, lists of actions and chains, computed by hand | |
//!
//! States are values of any type `S`; a model is a `Meaning S` of tw_atomic; stamps are their packed numbers
//! (tw_vtime); messages, items, bags and records are the types of tw_msgs as contracts see them.
//!
//! The functions do nothing: their contracts are the laws ([`laws`]) and the worked examples ([`examples`]).
#![tactic(auto)]

pub mod examples;
pub mod laws;
