//! Tests of pictures of a run: how many marks of each kind stand in them, what they tell, and what is refused. Tests of graphs of
//! files, byte for byte.
#![tactic(auto)]

#[cfg(test)]
mod graphs;
#[cfg(test)]
mod scenes;
#[cfg(test)]
mod tests;
