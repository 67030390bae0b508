//! What is wrong with the machines of a network file, and with what it says once for them, in words: the place in the file
//! and the reason.
//!
//! The machines are read in order, by the reader of `tw_machine_file`, up to the first that has a fault, which is then
//! looked for in the values and texts of that machine; where a text goes wrong `tw_machine_text_faults` says. Of the words
//! nothing is proved but that they are made safely and that the search ends: they are shown by tests, one for each kind of
//! fault.
//!
//! - `machines`: [`machines_of`], [`Machines`] and [`Machine`], the machines of a file, the parameters that components give, and the
//!   limits with these.
//! - `shared`: faults of `fields` and `constants`.
//! - `names`: the names that a machine's texts may use; `Written`, a machine as it is written, and what its file says once.
//! - `entries`: faults of parameters, registers, queues and tables; [`WHOLE`], the words for a whole number.
//! - `timers`: faults of timers.
//! - `members`: faults of outputs and words. `limits`: the limit that a machine passes.
//! - `values`: [`name_of`], the name of a component or a machine.
//! - `stop`: [`Stop`], why a walk over a file ends before its end.
#![tactic(auto)]

mod entries;
mod limits;
mod machines;
mod members;
mod names;
mod shared;
mod stop;
mod timers;
mod values;

pub use entries::WHOLE;
pub use machines::{Machine, Machines, machines_of};
pub use stop::Stop;
pub use values::name_of;
