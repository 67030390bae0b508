//! Counts and figures of a run from a tick on: what its components did, and how numbers of their states went.
//!
//! - [`Counts`] (`counts`): how many outputs, items and transitions of each kind a component has.
//! - [`Figure`], [`Measure`] (`figure`): a number that the words of a state tell, given as data; [`Labels`] (`labels`): the name of a
//!   component's model, its figures, and each [`Observation`], values that it adds up.
//! - [`Course`], [`Sums`] (`course`): how a figure went: its least and greatest value, its last, the sum over the ticks, and the ticks in
//!   which it was not 0. Before the first tick that counts it only keeps the value with which the figure comes to that.
//! - [`Told`] (`told`): what is told of it over a time: its sums exactly; [`mean`] and [`share`] (`shares`) round them to three decimals.
//! - [`sums_fit_law`], [`means_fit_law`] (`fitting`): sums of numbers of 64 bits over the ticks of a run fit, and their means.
//! - [`Member`] (`member`), [`Gatherer`] (`gatherer`): all of these, of the records of a component and of a run, that were given one after
//!   another. They keep no record.
//! - [`PowerSums`] (`power_sums`), [`Watch`] (`watch`): how many values an observation has added up, their sum and that of their squares;
//!   [`Observed`] (`observed`): what is told of them from a tick on, with mean and standard deviation (`deviation`). [`examples`] has some by hand.
//! - [`shown_of`] (`shown`): which components of a network are shown.
//! - [`Rows`], [`Tabled`], [`View`], [`Detail`] (`seeing`): what a table and a picture show of a run, as it is asked for.
//!
//! The contracts say what these numbers are of the list of records, in words that know nothing of how they are gathered.
#![tactic(auto)]

mod counts;
mod course;
mod deviation;
pub mod examples;
mod figure;
mod fitting;
mod gatherer;
mod labels;
mod member;
mod observed;
mod power_sums;
mod seeing;
mod shares;
mod shown;
mod told;
mod watch;

pub use counts::Counts;
pub use course::{Course, Sums};
pub use figure::{Figure, Measure};
pub use fitting::{means_fit_law, sums_fit_law};
pub use gatherer::Gatherer;
pub use labels::{Labels, Observation};
pub use member::Member;
pub use observed::Observed;
pub use power_sums::PowerSums;
pub use seeing::{Detail, Rows, Tabled, USUAL_WIDTH, View};
pub use shares::{mean, share};
pub use shown::{is_shown, shown_of};
pub use told::Told;
pub use watch::Watch;
