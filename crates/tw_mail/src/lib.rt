//! Mailboxes: what is in transit, a list of items for each receiver.
//!
//! [`Mailboxes::post`] puts items at the ends of their receivers' mailboxes, all of them or none; [`Mailboxes::take`] takes one out,
//! wherever it stands, and [`Mailboxes::put_back`] undoes that. Taking the items of a mailbox from its front one by one costs as many
//! steps as there are items. Contracts see the mailboxes as lists, in the words of the theory (`posted`, `mail_of`, `least_mail`).
//!
//! Only `new` and `post` take memory, and only they can be refused (4).
#![tactic(auto)]

mod least;
mod mailbox;
mod mailboxes;

pub use mailboxes::Mailboxes;
pub use tw_vtime::OutOfMemory;
