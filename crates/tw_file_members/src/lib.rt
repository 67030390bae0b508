//! What is looked up in the JSON value of a network file: the members of its objects, the machine that a component names,
//! and how many numbers its tables have.
//!
//! - [`has_members`], [`has_items`]: whether an object has so many members, an array so many items. An object of so many
//!   members that has each that is looked up has no other.
//! - [`has_format`], [`is_file`]: whether an object says that it is a file of this format, and has so many members.
//! - [`text_at`], [`count_at`], [`value_at`], [`items_at`]: the member of a name, where it has the type that is asked for.
//! - [`items_in`], [`text_in`]: the same, empty where the type is another.
//! - [`machine_named`], [`machine_index`]: the first machine of a name, and its place.
//! - [`has_few_numbers`]: whether the tables of the whole file have at most 1,048,576 numbers: those that stand in the
//!   tables of its machines, of each machine once, and those that its components give for lists.
#![tactic(auto)]

mod members;
mod named;
mod tables;

pub use members::{
    count_at, has_format, has_items, has_members, is_file, items_at, items_in, text_at, text_in,
    value_at,
};
pub use named::{machine_index, machine_named};
pub use tables::has_few_numbers;
