//! Tests of the executive, of the exchange, of the board and what is told of it, and of runs by workers: worked examples, and
//! each public function once.
#![tactic(auto)]

#[cfg(test)]
mod tests;
