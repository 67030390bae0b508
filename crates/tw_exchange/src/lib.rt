//! The exchange: what workers share of an executive, without any thread.
//!
//! An [`Exchange`] gives out components ([`draw`](Exchange::draw)): a worker works out the next steps of one apart from it
//! ([`compute`]), and hands them in ([`finish`](Exchange::finish)), where those that are the component's own next ones are made. From
//! time to time [`settle`](Exchange::settle) posts and delivers all that is in transit, [`raise`](Exchange::raise) lets global virtual
//! time rise, and a [`sweep`](Exchange::sweep) does both and commits; the board is then told how far it came. Whoever calls in whatever order, the executive stays sound. Each call answers at once; none waits.
//!
//! | File | Calls |
//! |---|---|
//! | `exchange` | making one, and what is read of it; `act`: an action of the executive's own |
//! | `orders` | [`Order`] and [`Prepareds`], which must be spent; [`compute`], which takes no part of the exchange |
//! | `gate` | [`Gate`]: told of each order before it is worked out |
//! | `giving` | `draw`, `draw_near`, `next`, `finish`, `give_back` |
//! | `sweeping` | `settle`, `raise`, `sweep` |
//! | `states` | `state`: whether the run is complete, or in a fault |
//! | `outcome` | [`find_end`], [`outcome_of`]: whether the run is over, and its [`Outcome`] then |
//! | `undone` | [`Undone`]: what deliveries took back |
//! | `refused` | [`NoSuch`], [`SweepRefused`]: what an exchange refuses |
//!
//! `queues` knows which component has the least next step, which have something to post and which mailboxes hold something, without
//! looking at all of them (each an `agenda`), and is kept so (`keeping`); `idle`: whether there is anything to post or to deliver; `posting` tells the board how far the executive came.
#![tactic(auto)]

mod agenda;
mod exchange;
mod gate;
mod giving;
mod idle;
mod keeping;
mod orders;
mod outcome;
mod posting;
mod queues;
mod refused;
mod states;
mod sweeping;
mod undone;

pub use exchange::Exchange;
pub use gate::{Gate, Open};
pub use orders::{Order, Prepareds, compute};
pub use outcome::{Outcome, find_end, outcome_of};
pub use posting::post;
pub use refused::{NoSuch, SweepRefused};
pub use undone::Undone;
