//! A machine of a network file of format `tw-3`: from the JSON value of one object of `models` to what it declares.
//!
//! - `machines`: [`machines_in`], all machines of a file; [`program_in`], the program that a component makes of one.
//! - `used`: [`is_used`], whether a component of a file uses a machine.
//! - `machine`: [`machine_of`], the machine that a value declares ([`FileMachine`]), or the first thing that is wrong with it.
//! - `shared`: [`SharedNames`], what a file says once for all its machines: its fields ([`FileField`]) and its constants
//!   ([`FileConstant`]). `reading`: [`shared_in`], this of a file; [`fields_of`], its fields alone. `hiding`: what a machine has of it.
//! - `declarations`: its parameters, registers, queues and tables. `timers`: its timers; `timed`: what these do and send.
//! - `constants`: whole numbers, and names that stand for one.
//! - `names`: what may be a name.
//! - `procedures`: its procedures.
//! - `texts`: programs, and expressions in members; [`said_law`] says that the program that a text says is the one that the
//!   language's grammar gives it, and no other.
//! - `outputs`: what a machine sends. `words`: what it shows.
//! - `given`: [`given_of`], what a component gives for the parameters of its machine.
//! - `values`: members of a JSON value.
//! - `fault`: [`MachineFault`], [`Part`], [`Sender`] and [`Why`], what is wrong, in which part, and how.
//! - [`examples`]: machines by hand.
//!
//! A machine that a component uses is held to its limits with what each of its components gives; one that none uses, with
//! nothing given for its parameters.
#![tactic(auto)]

mod constants;
mod declarations;
pub mod examples;
mod fault;
mod given;
mod hiding;
mod machine;
mod machines;
mod names;
mod outputs;
mod procedures;
mod reading;
mod shared;
mod texts;
mod timed;
mod timers;
mod used;
mod values;
mod words;

pub use fault::{MachineFault, Part, Sender, Why};
pub use given::given_of;
pub use machine::{FileMachine, machine_of};
pub use machines::{machines_in, program_in};
pub use reading::{fields_of, shared_in};
pub use shared::{FileConstant, FileField, MAX_BITS, SharedNames};
pub use texts::said_law;
pub use used::is_used;
