//! Tests of counts, figures and tables of a run, on networks whose numbers were worked out by hand: `tests`; of the
//! components that are shown, of changes and of an observation: `views`; of a run that is made already, and of a table that is held:
//! `made`; of the fields of an item's value: `fields`; and of the names and figures of machines: `machines`.
#![tactic(auto)]

#[cfg(test)]
mod fields;
#[cfg(test)]
mod machines;
#[cfg(test)]
mod made;
#[cfg(test)]
mod tests;
#[cfg(test)]
mod views;
