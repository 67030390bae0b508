//! Tests of machines: from the JSON values of a network file to the records of a run; a text with timers; and the warnings of a file.
#![tactic(auto)]

#[cfg(test)]
mod tests;
