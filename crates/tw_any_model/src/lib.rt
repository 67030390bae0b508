//! The model of a component, built in or a machine: one type for networks that have both.
//!
//! - [`AnyModel`]: one of the five models of tw_models, or a machine of tw_machine. Each acts on states of its own kind,
//!   as it does alone; all laws of a model are proved.
#![tactic(auto)]

mod any_model;

pub use any_model::{AnyModel, AnyResidue, AnyState};
