//! Rollback and receipt: what came too late is made good by taking steps back (Jefferson 1985).
//!
//! - [`back_to`]: every step at or after a stamp is taken back.
//! - [`receive`]: a message or an anti-message comes to a process; [`Received`] tells what came of it.
//!
//! Both stand on the public calls of a process alone. All room is made before anything changes, so a refused item leaves its process
//! as it was; `back_to` takes no memory.
#![tactic(auto)]

mod rollback;

pub use rollback::{back_to, receive};
pub use tw_actions::Received;
