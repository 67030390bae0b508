//! What two modules share: stamps, executives and exchanges, what is seen of them, and traces.

ghost use Rattle.std.specs.Prelude.{◌≡◌, ◌≤◌, IfOk, Some, slice_get};
ghost use Rattle.tw_vtime.specs.Stamps.{stamp};

use std::alloc::Global;
use std::process::Abort;
use tw_atomic::Atomic;
use tw_board::Board;
use tw_exec::Executive;
use tw_inspect::{describe, report};
use tw_models::Model;
use tw_msgs::Record;
use tw_network::{Coupling, Input, Network};
use tw_process::Cancel;
use tw_texts::push_record;
use tw_vtime::{Refusal, Stamp};
use tw_workers::{Exchange, Open, Order, Prepareds, compute};

/// The generator of a row.
pub(crate) const G: usize = 0;
/// The relay of a row.
pub(crate) const R: usize = 1;
/// The tally of a row.
pub(crate) const T: usize = 2;

/// A stamp, written as in the examples.
pub(crate) fn stamp(rt: &impl Abort, tick: u64, microstep: u32, phase: u8) -> Stamp {
    Stamp::new(tick, microstep, phase).expect(rt, "a stamp")
}

/// A network of these components, in which 100 is the greatest microstep.
fn network_of<M: Atomic + Copy>(
    alloc: Global,
    named: &[(&str, M)],
    couplings: &[Coupling],
    inputs: &[Input],
) -> Result<Network<M>, Refusal>
    ensures { IfOk result (λ network. network.micro_limit ≡ 100) }
{
    let couplings = Vec::from_slice(alloc, couplings)?;
    let inputs = Vec::from_slice(alloc, inputs)?;
    let mut components = Vec::new(alloc);
    for (name, model) in named {
        components.push((String::from_str(alloc, *name)?, *model))?;
    }
    Ok(Network::new(alloc, components, couplings, inputs, 100)?)
}

/// The executive of components that are not coupled, until tick 5, which cancels in this way.
pub(crate) fn apart<M: Atomic + Copy>(
    rt: &impl Abort,
    alloc: Global,
    named: &[(&str, M)],
    cancel: Cancel,
) -> Executive<M>
    ensures limit { result.network.micro_limit ≡ 100 }
    ensures until { result.until ≡ 5 }
{
    let network = network_of(alloc, named, &[], &[]).expect(rt, "a network");
    Executive::with_cancel(alloc, network, 5, cancel).expect(rt, "an executive")
}

/// A generator of period 2 and value 5, a relay of delay 1 and a tally in a row, of which the relay has 0=8 at tick 3.
fn row(alloc: Global) -> Result<Network<Model>, Refusal> {
    let named = [
        ("g", Model::generator(2, 5)?),
        ("r", Model::relay(1)?),
        ("t", Model::tally()?),
    ];
    let couplings = [(G, 0, R, 0), (R, 0, T, 0)];
    network_of(alloc, &named, &couplings, &[(3, R, 0, 8)])
}

/// The executive of the row until tick 10.
pub(crate) fn in_a_row(rt: &impl Abort, alloc: Global, cancel: Cancel) -> Executive<Model> {
    let network = row(alloc).expect(rt, "a network");
    Executive::with_cancel(alloc, network, 10, cancel).expect(rt, "an executive")
}

/// An exchange of an executive, with a board on which nothing is posted.
pub(crate) fn exchange_of(
    rt: &impl Abort,
    alloc: Global,
    executive: Executive<Model>,
) -> Exchange<Model>
    ensures { result.executive ≡ executive }
{
    let (_, publisher) = Board::new(alloc).expect(rt, "memory");
    Exchange::new(alloc, executive, publisher)
        .ok()
        .expect(rt, "memory")
}

/// The order of the component that comes next, which is this one.
pub(crate) fn order_of(
    rt: &impl Abort,
    exchange: &mut Exchange<Model>,
    component: usize,
) -> Order<Model>
    ensures { exchange.new.executive ≡ exchange.old.executive }
{
    let drawn = exchange.draw(16, 1000).expect(rt, "memory");
    let order = drawn.expect(rt, "an order");
    assert!(rt; order.component() == component);
    order
}

/// The chain of the component that comes next, which is this one.
pub(crate) fn chain_of(
    rt: &impl Abort,
    exchange: &mut Exchange<Model>,
    component: usize,
) -> Prepareds<Model>
    ensures executive { exchange.new.executive ≡ exchange.old.executive }
    ensures component { result.run.start.component ≡ component }
    ensures limit { result.run.start.micro_limit ≡ exchange.old.executive.network.micro_limit }
    ensures bound { result.run.start.before ≤ stamp exchange.old.executive.until 0 0 }
    ensures model { slice_get exchange.old.executive.network.models component ≡ Some result.model }
{
    let drawn = exchange.draw(16, 1000).expect(rt, "memory");
    let order = drawn.expect(rt, "an order");
    let network = exchange.executive().network();
    assert!(rt; order.component() == component && component < network.len());
    compute(order, network.model(component), &Open)
}

/// What is seen of an executive.
pub(crate) fn text_of(rt: &impl Abort, alloc: Global, executive: &Executive<Model>) -> String {
    report(alloc, executive).expect(rt, "memory")
}

/// Asserts what is seen of the relay: where it stands, its messages and its words.
pub(crate) fn assert_relay(
    rt: &impl Abort,
    alloc: Global,
    executive: &Executive<Model>,
    seen: &str,
) {
    assert!(rt; R < executive.network().len());
    let text = describe(alloc, executive, R).expect(rt, "memory");
    assert!(rt; text.as_str() == seen);
}

/// Asserts that the records have these lines, where components have these names.
pub(crate) fn assert_trace(
    rt: &impl Abort,
    alloc: Global,
    records: &[Record],
    names: &[&str],
    lines: &str,
) {
    let mut text = String::new(alloc);
    for record in records {
        let name = names.get(record.component).expect(rt, "a component");
        push_record(&mut text, *name, record).expect(rt, "memory");
    }
    assert!(rt; text.as_str() == lines);
}
