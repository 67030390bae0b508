//! Tests of stamps, messages, models, networks and their sequential run: worked examples, and each public function once.
#![tactic(auto)]

#[cfg(test)]
mod tests;
