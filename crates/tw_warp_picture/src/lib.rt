//! The picture of a run of Time Warp, as Scalable Vector Graphics.
//!
//! - [`draw_script`] and [`draw_seed`] have a player obey commands, or the actions that a seed gives, and write the picture of
//!   what they did.
//! - [`watch_script`] and [`watch_seed`] note what came of each action: [`Seen`]. It is plain data: the actions with their replies,
//!   and where each component stood; its steps, and which of them were undone later; the falls of its rollbacks; the messages
//!   and anti-messages, from the action that made them to their delivery; the rises of global virtual time; what was committed. At
//!   most [`MOST_ACTIONS`] are watched. Want of memory is the only refusal (4).
//!
//! In the picture actions go from left to right, and virtual time upwards. A component climbs by its steps and falls in its
//! rollbacks; messages go from the step that made them to their delivery; global virtual time is a staircase, and all below it
//! is final. The picture is a file of its own, for light and dark, without scripts; the same call gives the same bytes.
//!
//! | File | Says |
//! |---|---|
//! | `drawing` | a run is watched, and its picture is written ([`draw_script`], [`draw_seed`]) |
//! | `seen` | what is seen of a run ([`Seen`]); an action is told by its place in the list of all |
//! | `watching` | a player that obeys, and is watched ([`watch_script`], [`watch_seed`]) |
//! | `notes` | what came of each action, noted; `lane`: what is kept of one component for that |
//! | `reading` | what is read of a component: where it stands, what it keeps, what it sends |
//! | `whole` | the picture: the parts below, one over the other |
//! | `scene` | what is drawn, with the words that are told of each action |
//! | `plan` | where it stands |
//! | `keys` | title, facts and legend |
//! | `ground` | the axis of virtual time, global virtual time, what is committed |
//! | `messages` | messages and anti-messages |
//! | `courses` | where the components stand: steps, rollbacks, refused actions |
//! | `strip` | names at the right, actions at the foot |
//! | `looks`, `style` | shapes and colours |
#![tactic(auto)]

mod courses;
mod drawing;
mod ground;
mod keys;
mod lane;
mod looks;
mod messages;
mod notes;
mod plan;
mod reading;
mod scene;
mod seen;
mod strip;
mod style;
mod watching;
mod whole;

pub use drawing::{draw_script, draw_seed};
pub use seen::{
    Acted, Carried, Cause, Committed, Fallen, MOST_ACTIONS, Move, Risen, Seen, Sending, Stepped,
};
pub use watching::{watch_script, watch_seed};
