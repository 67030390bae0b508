//! What a component's model is called, and what is told of it.

use crate::figure::Figure;

/// An observation of a component: values that its model adds up. In the words of a state it has three numbers, one beside
/// the other: how many values there were, their sum, and the sum of their squares, each modulo 2^64 with sign.
#[derive(Debug, PartialEq, Eq, Drop)]
pub struct Observation {
    /// Its name.
    pub name: String,
    /// The place of the first of its numbers among the words, from 0.
    pub place: usize,
}

/// What a component's model is called, its figures and its observations.
#[derive(Debug, PartialEq, Eq, Drop)]
pub struct Labels {
    /// The name of its model.
    pub model: String,
    /// Its figures, in their order.
    pub figures: Vec<Figure>,
    /// Its observations, in their order.
    pub observations: Vec<Observation>,
}
