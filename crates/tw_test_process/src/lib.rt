//! Tests of one process and of what it is made of: containers, lists and mail.
#![tactic(auto)]

#[cfg(test)]
mod tests;
