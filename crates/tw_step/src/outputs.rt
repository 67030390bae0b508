//! What a component sends.

ghost use Rattle.std.specs.Prelude.{◌≡◌, ◌<◌, IfOk, OnOk, length};
ghost use Rattle.tw_msgs.specs.Bags.{sorted_bag};
ghost use Rattle.tw_network.specs.Contents.{network_of};
ghost use Rattle.tw_theory.specs.Network.{routed};

use std::alloc::{AllocError, Global};
use tw_atomic::{Atomic, Outbox};
use tw_msgs::{Bag, Message};
use tw_network::Network;
use tw_vtime::Stamp;

/// The output of a model in a state, sorted by port, then value. Refused for want of memory alone (4); up to two
/// items take none.
pub fn output_bag<M: Atomic>(alloc: Global, model: &M, state: &M::State) -> Result<Bag, AllocError>
    requires { M.valid model.now state.now }
    ensures { IfOk result (λ bag. bag ≡ sorted_bag ((M.meaning model.now).out state.now)) }
{
    let mut outbox = Outbox::new();
    let mut bag = Bag::new(alloc);
    fill_output(model, state, &mut outbox, &mut bag)?;
    Ok(bag)
}

/// Makes `bag` the output of a model in a state, sorted by port, then value. What was in the bag and in the outbox is
/// lost. Refused for want of memory alone (4); up to two items take none.
///
/// A caller with many outputs keeps bag and outbox, so that neither is made anew for each.
pub fn fill_output<M: Atomic>(
    model: &M,
    state: &M::State,
    outbox: &mut Outbox,
    bag: &mut Bag,
) -> Result<(), AllocError>
    requires { M.valid model.now state.now }
    ensures { OnOk result (bag.new ≡ sorted_bag ((M.meaning model.now).out state.now)) }
{
    outbox.clear();
    model.output(state, outbox);
    bag.clear();
    for item in outbox.as_slice() {
        bag.push(*item)?;
    }
    bag.sort();
    Ok(())
}

/// The messages that an output bag of a component sends, each with this stamp: for each item in order, one to each
/// destination of its port, by component, then port. Refused for want of memory alone (4).
pub fn routed<M: Atomic>(
    alloc: Global,
    network: &Network<M>,
    component: usize,
    stamp: Stamp,
    bag: &Bag,
) -> Result<Vec<Message>, AllocError>
    requires { component < length network.now.models }
    ensures { IfOk result (λ messages. messages.items ≡ routed
        (network_of M.meaning network.now) component stamp bag.now) }
{
    let mut messages = Vec::new(alloc);
    for (port, value) in bag.as_slice() {
        for (to, entrance) in network.routes(component, *port) {
            messages.push(Message {
                stamp,
                port: *entrance,
                value: *value,
                to: *to,
            })?;
        }
    }
    Ok(messages)
}
