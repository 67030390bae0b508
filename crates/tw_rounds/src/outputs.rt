//! The outputs of a round.

ghost use Rattle.std.specs.Prelude.{◌≡◌, ◌<◌, ℕ, OnOk, length};
ghost use Rattle.std.specs.List.{All, Contains};
ghost use Rattle.std.specs.List.Sorted.{IsStrictlyIncreasing};
ghost use Rattle.tw_rounds.specs.Agenda.{IsDueAt};
ghost use Rattle.tw_rounds.specs.Dealing.{dealt};
ghost use Rattle.tw_rounds.specs.Receiving.{Receives};
ghost use Rattle.tw_rounds.specs.Waking.{WakesAll};
ghost use Rattle.tw_vtime.specs.Stamps.{max_tick, tick_of, phase_of};
ghost use Rattle.tw_rounds.specs.Invariant.{AllStandIn};
ghost use Rattle.tw_rounds.specs.Turning.{outputs_in, sent_in};

use crate::bags::{Arrivals, route};
use crate::receiver::Receiver;
use crate::round::Round;
use std::alloc::{AllocError, Global};
use tw_atomic::{Atomic, Outbox};
use tw_msgs::{Bag, RecordKind};
use tw_step::{Moment, fill_output};

/// What an output is put into, kept from one output to the next.
#[derive(Drop)]
pub(crate) struct Sending {
    outbox: Outbox,
    bag: Bag,
}

impl Sending {
    /// Nothing is sent yet.
    pub(crate) fn new(alloc: Global) -> Sending {
        Sending {
            outbox: Outbox::new(),
            bag: Bag::new(alloc),
        }
    }
}

/// Hands the output of each component that is imminent in a round to the receiver, and puts what it sends into the
/// bags of the components to which it goes.
pub(crate) fn make_outputs<M: Atomic, R: Receiver>(
    round: &Round<'_, M>,
    moments: &[Moment<M::State>],
    imminent: &[usize],
    sending: &mut Sending,
    arrivals: &mut Arrivals,
    receiver: &mut R,
) -> Result<(), AllocError>
    requires time { tick_of round.now.time < max_tick }
    requires even { phase_of round.now.time ≡ 0 }
    requires moments { AllStandIn M.valid M.meaning round.now round.now.time moments.now }
    requires rising { IsStrictlyIncreasing imminent.now }
    requires each { All (λ c. IsDueAt moments.now c round.now.time) imminent.now }
    requires all { (c : ℕ) → IsDueAt moments.now c round.now.time → Contains imminent.now c }
    requires bags { length arrivals.old.bags.items ≡ length round.now.network.now.models }
    requires awake { WakesAll arrivals.old.bags.items arrivals.old.awake.items }
    ensures received { let made = outputs_in M.meaning round.now moments.now in
        OnOk result (Receives R.takes receiver.old made receiver.new) }
    ensures bags { let sent = sent_in M.meaning round.now moments.now in
        OnOk result (arrivals.new.bags.items ≡ dealt 0 arrivals.old.bags.items sent) }
    ensures awake { OnOk result (WakesAll arrivals.new.bags.items arrivals.new.awake.items) }
{
    let at = round.time.transition();
    for component in imminent {
        let component = *component;
        let now = &moments[component];
        let model = round.network.model(component);
        let bag = &mut sending.bag;
        fill_output(model, &now.state, &mut sending.outbox, bag)?;
        route(round.network, component, at, bag, arrivals)?;
        receiver.take(component, round.time, RecordKind::Out, bag, &[])?;
    }
    Ok(())
}
