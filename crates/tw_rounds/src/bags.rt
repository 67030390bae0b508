//! The bags in which a round gathers what comes to each component.

ghost use Rattle.std.specs.Prelude.{◌≡◌, ◌<◌, ◌≤◌, ◌∷◌, [], OnOk, IfOk, drop, length, replicate};
ghost use Rattle.std.specs.List.{All, Contains};
ghost use Rattle.std.specs.List.Sorted.{IsStrictlyIncreasing};
ghost use Rattle.tw_rounds.specs.Dealing.{dealt};
ghost use Rattle.tw_rounds.specs.Waking.{WakesAll};
ghost use Rattle.tw_theory.specs.Bundles.{Ascending};
ghost use Rattle.tw_theory.specs.Simulator.{with_stamp, past_stamp};
ghost use Rattle.tw_theory.specs.Network.{routed};
ghost use Rattle.tw_network.specs.Contents.{network_of};
ghost use Rattle.std.specs.List.{AllByRecursion as Each};

use std::alloc::{AllocError, Global};
use tw_atomic::Atomic;
use tw_msgs::{Bag, Message};
use tw_network::Network;
use tw_vtime::Stamp;

/// What comes to the components in a round.
#[derive(Drop)]
pub(crate) struct Arrivals {
    /// The bag of each component.
    pub(crate) bags: Vec<Bag>,
    /// The components that have something to do in the round.
    pub(crate) awake: Vec<usize>,
}

impl Arrivals {
    /// An empty bag for each of `count` components.
    pub(crate) fn new(alloc: Global, count: usize) -> Result<Arrivals, AllocError>
        ensures { IfOk result (λ arrivals. arrivals.bags.items ≡ replicate count []) }
    {
        let mut bags = Vec::with_capacity(alloc, count)?;
        for _ in 0..count {
            bags.push(Bag::new(alloc))?;
        }
        Ok(Arrivals {
            bags,
            awake: Vec::new(alloc),
        })
    }

    /// Puts what a message carries into the bag of its receiver, who is awake then.
    pub(crate) fn deliver(&mut self, message: &Message) -> Result<(), AllocError>
        requires to { message.now.to < length self.old.bags.items }
        requires awake { WakesAll self.old.bags.items self.old.awake.items }
        ensures bags { OnOk result
            (self.new.bags.items ≡ dealt 0 self.old.bags.items (message.now ∷ [])) }
        ensures awake { OnOk result (WakesAll self.new.bags.items self.new.awake.items) }
    {
        if self.bags[message.to].is_empty() {
            self.awake.push(message.to)?;
        }
        self.bags[message.to].push((message.port, message.value))?;
        Ok(())
    }

    /// Puts the inputs of a stamp, the first from place `given` on, into the bags of their receivers.
    /// Answers the place of the first input after them.
    pub(crate) fn deliver_inputs(
        &mut self,
        inputs: &[Message],
        given: usize,
        at: Stamp,
    ) -> Result<usize, AllocError>
        requires to { Each (λ m. m.to < length self.old.bags.items) (drop given inputs.now) }
        requires order { Ascending (drop given inputs.now) }
        requires from { Each (λ m. at ≤ m.stamp) (drop given inputs.now) }
        requires awake { WakesAll self.old.bags.items self.old.awake.items }
        ensures bags { let due = with_stamp at (drop given inputs.now) in
            OnOk result (self.new.bags.items ≡ dealt 0 self.old.bags.items due) }
        ensures given { IfOk result
            (λ next. drop next inputs.now ≡ past_stamp at (drop given inputs.now)) }
        ensures awake { OnOk result (WakesAll self.new.bags.items self.new.awake.items) }
    {
        let mut next = given;
        while next < inputs.len() && inputs[next].stamp == at {
            self.deliver(&inputs[next])?;
            next += 1;
        }
        Ok(next)
    }

    /// Wakes these components too, and puts those that are awake in order.
    pub(crate) fn wake(&mut self, imminent: &[usize]) -> Result<(), AllocError>
        requires imminent { All (λ c. c < length self.old.bags.items) imminent.now }
        requires awake { WakesAll self.old.bags.items self.old.awake.items }
        ensures bags { OnOk result (self.new.bags.items ≡ self.old.bags.items) }
        ensures rising { OnOk result (IsStrictlyIncreasing self.new.awake.items) }
        ensures imminent { OnOk result (All (Contains self.new.awake.items) imminent.now) }
        ensures awake { OnOk result (WakesAll self.new.bags.items self.new.awake.items) }
    {
        self.awake.extend_from_slice(imminent)?;
        self.awake.sort_unstable();
        self.awake.dedup();
        Ok(())
    }
}

/// Puts the items of an output of `source` into the bags of the components to which they go, for the
/// transition `at`.
pub(crate) fn route<M: Atomic>(
    network: &Network<M>,
    source: usize,
    at: Stamp,
    items: &Bag,
    arrivals: &mut Arrivals,
) -> Result<(), AllocError>
    requires source { source < length network.now.models }
    requires size { length arrivals.old.bags.items ≡ length network.now.models }
    requires awake { WakesAll arrivals.old.bags.items arrivals.old.awake.items }
    ensures bags { let sent = routed (network_of M.meaning network.now) source at items.now in
        OnOk result (arrivals.new.bags.items ≡ dealt 0 arrivals.old.bags.items sent) }
    ensures awake { OnOk result (WakesAll arrivals.new.bags.items arrivals.new.awake.items) }
{
    network.facts();
    for (port, value) in items.as_slice() {
        for (to, entrance) in network.routes(source, *port) {
            let message = Message {
                stamp: at,
                port: *entrance,
                value: *value,
                to: *to,
            };
            arrivals.deliver(&message)?;
        }
    }
    Ok(())
}
