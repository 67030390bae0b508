//! The actions that a seed gives.

ghost use Rattle.std.specs.Prelude.{◌≡◌};
ghost use Rattle.tw_seeded.specs.Schedules.{action_drawn, after, chosen, drawn, place_drawn, seeded, stamp_drawn};

use rand_core::SeedableRng;
use rand_core::utils::NextWord;
use rand_pcg::Pcg32;
use std::marker::Model;
use tw_atomic::Atomic;
use tw_exec::{Action, Executive};
use tw_vtime::{MAX_TICK, Stamp};

/// Actions drawn from the numbers of a seed, by the generator Pcg32 (O'Neill 2014). Three numbers of 32 bits are drawn for each
/// action, whether or not it needs them.
///
/// Contracts see the generator.
#[derive(Drop)]
pub struct Schedule {
    random: Pcg32,
}

impl Model for Schedule {
    ghost use Rattle.rand_pcg.specs.Lcg.{Lcg};

    ghost Value = { Lcg };

    ghost view = { λ s. s.random };
}

impl Schedule {
    /// The schedule of a seed, at its start.
    pub fn new(seed: u64) -> Schedule
        ensures { result ≡ seeded seed }
    {
        Schedule {
            random: Pcg32::seed_from_u64(seed),
        }
    }

    /// The next action for an executive as it stands; `None` where it has no components. Three numbers of 32 bits are
    /// drawn. The first, modulo 6, chooses the action, the second, modulo their number, the component:
    ///
    /// - 0: its step; 1: a post; 4: a rise of global virtual time; 5: a harvest.
    /// - 2: a delivery of the item at the place that the third number says, modulo how many it has (place 0 of an
    ///   empty mailbox).
    /// - 3: a rollback to the start of the tick that is 0 to 3 (the third number modulo 4) after that of global
    ///   virtual time, but never before global virtual time or after the greatest tick.
    pub fn next_action<M: Atomic>(&mut self, executive: &Executive<M>) -> Option<Action>
        ensures action { result ≡ action_drawn executive.now (drawn self.old) }
        ensures drawn { self.new ≡ after self.old }
    {
        let choice = self.random.next_word();
        let number = self.random.next_word();
        let detail = self.random.next_word();
        let count = executive.network().len();
        if count == 0 {
            return None;
        }
        let component = number as usize % count;
        let place = place_drawn(executive.mail(component).len(), detail);
        let at = stamp_drawn(executive.gvt(), detail);
        Some(chosen(choice % 6, component, place, at))
    }
}

/// The action of this number, of 0 to 5, and what it is done with.
fn chosen(number: u32, component: usize, place: usize, at: Stamp) -> Action
    ensures { result ≡ chosen number component place at }
{
    match number {
        0 => Action::Step(component),
        1 => Action::Post(component),
        2 => Action::Deliver(component, place),
        3 => Action::Back(component, at),
        4 => Action::Raise,
        _ => Action::Harvest(component),
    }
}

/// The place of a mailbox of so many items that a number says: the first, where it is empty.
fn place_drawn(len: usize, number: u32) -> usize
    ensures { result ≡ place_drawn len number }
{
    if len == 0 { 0 } else { number as usize % len }
}

/// The stamp that a number says, with global virtual time at this.
fn stamp_drawn(gvt: Stamp, number: u32) -> Stamp
    ensures { result ≡ stamp_drawn gvt number }
{
    if gvt.is_end() {
        return gvt;
    }
    let tick = (gvt.tick() + u64::from(number % 4)).min(MAX_TICK);
    match Stamp::new(tick, 0, 0) {
        Ok(stamp) => stamp.max(gvt),
        Err(_) => gvt,
    }
}
