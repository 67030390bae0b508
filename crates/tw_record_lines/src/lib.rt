//! The lines of a network's sequential run, written round by round: those of its trace, or those of a table of comma-separated values.
//!
//! Each is a loop over rounds. What a round did goes line by line to two receivers, of outputs and of transitions, and the lines
//! go to the writer after the round. No record is kept, so that a longer run takes no more memory.
//!
//! - [`write_lines`] (`trace`): the trace; its lines are gathered by `trace_lines`.
//! - [`hold_lines`] (`held`) and [`hold_table`] (`held_table`): the trace or a table, held while it is short, with the fault that ends the run.
//! - [`write_table`] (`table`): a [`Table`], whose lines are gathered by `table_lines` and made by `rows`; those of items have a column for
//!   each [`Column`] (`fields`).
//! - [`write_figures`] (`figure_table`): a [`FigureTable`], whose lines are gathered by `figure_lines` and made by `figure_rows`.
//! - [`write_table_of`] and [`write_figures_of`] (`made`): the same tables of a run that is made already, by workers for example.
//!
//! The contracts give the exact bytes.
#![tactic(auto)]

mod fields;
mod figure_lines;
mod figure_rows;
mod figure_table;
mod held;
mod held_table;
mod made;
mod rows;
mod table;
mod table_lines;
mod trace;
mod trace_lines;

pub use fields::Column;
pub use figure_lines::FigureTable;
pub use figure_table::write_figures;
pub use held::{Held, hold_lines};
pub use held_table::hold_table;
pub use made::{write_figures_of, write_table_of};
pub use table::write_table;
pub use table_lines::Table;
pub use trace::write_lines;
