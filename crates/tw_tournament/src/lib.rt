//! The times of many components, and which of them come first: a tournament.
//!
//! A [`Tournament`] keeps one time for each number from 0 on. It tells the first of them in constant time; in time logarithmic in how
//! many there are it takes another time for a number, and tells the least number that is at the first; and it lists the numbers of one
//! time in time logarithmic for each. Contracts see the times as a list. Only `new` takes memory, and the list that `collect` makes.
#![tactic(auto)]

mod gathering;
mod playing;
mod tournament;

pub use tournament::Tournament;
