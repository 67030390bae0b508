//! Tests of what is shown and of the program's parts: texts, scripts and command lines. What the program does and writes, also where
//! a read, a write or memory is refused, is compared in the cases of tests/ in the repository's top folder.
#![tactic(auto)]

#[cfg(test)]
mod tests;
