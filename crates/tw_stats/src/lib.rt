//! Counts, figures and observations of a network's sequential run, told as tables or as JSON.
//!
//! - [`report_of`] (`report`): simulates a network and tells them, as a [`Report`]: its contract says of which records each number is.
//!   They are gathered round by round (`gathering`); no record is kept longer than its round, so that a longer run takes no more
//!   memory.
//!   [`report_of_made`] tells the same of a run that is made already ([`MadeRun`]), by workers for example.
//! - [`write_report`] (`written`): writes a report, whose components stand beside their names (`rows`), or those that are shown: as text (`text`), in aligned
//!   columns (`grid`), or as JSON (`json`), with its strings (`strings`). Means and shares stand with three decimals (`decimals`).
//!
//! The contracts give the exact bytes; [`examples`] has pieces of reports by hand.
#![tactic(auto)]

mod decimals;
pub mod examples;
mod gathering;
mod grid;
mod json;
mod report;
mod rows;
mod strings;
mod text;
mod written;

pub use gathering::MadeRun;
pub use report::{Part, Report, report_of, report_of_made};
pub use written::{Layout, write_report};
