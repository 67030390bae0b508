//! Chains of a larger network, which a smaller one refuses.

ghost use Rattle.std.specs.Prelude.{◌≡◌, ◌≤◌, IsTrue, None, slice_get};
ghost use Rattle.tw_vtime.specs.Stamps.{stamp};

use super::helpers::{apart, chain_of, exchange_of, order_of, text_of};
use std::alloc::Global;
use std::process::Abort;
use tw_chain::Prepared;
use tw_exec::{Executive, Refused};
use tw_models::Model;
use tw_process::Cancel;
use tw_vtime::Stamp;
use tw_workers::{Exchange, NoSuch, Prepareds};

/// A generator of period 2 and value 1.
fn generator(rt: &impl Abort) -> Model {
    Model::generator(2, 1).expect(rt, "a generator")
}

/// The executive of the first so many of three generators, not coupled, until tick 5.
fn generators(rt: &impl Abort, alloc: Global, count: usize) -> Executive<Model>
    ensures limit { result.network.micro_limit ≡ 100 }
    ensures until { result.until ≡ 5 }
{
    let named = [
        ("x", generator(rt)),
        ("y", generator(rt)),
        ("z", generator(rt)),
    ];
    apart(rt, alloc, &named[..count.min(3)], Cancel::Aggressive)
}

/// Whether an executive has no such component.
fn lacks(executive: &Executive<Model>, component: usize) -> bool
    ensures { IsTrue result → slice_get executive.now.network.models component ≡ None }
{
    executive.facts();
    component >= executive.network().len()
}

/// The last one's chain of four steps, worked out apart from the executive.
fn four_steps(rt: &impl Abort, larger: &Executive<Model>) -> Prepared<Model>
    ensures component { result.run.start.component ≡ 2 }
    ensures limit { result.run.start.micro_limit ≡ larger.now.network.micro_limit }
    ensures bound { result.run.start.before ≤ stamp 5 0 0 }
{
    let end = Stamp::new(5, 0, 0).expect(rt, "a stamp");
    assert!(rt; 2 < larger.network().len());
    let _process = larger.contents(2);
    let start = larger.start(2, end, 16).expect(rt, "a start");
    let chain = start.prepare(larger.network().model(2));
    assert!(rt; chain.len() == 4);
    chain
}

/// Of three generators the last one's chain of four steps, installed where there are two.
#[test]
fn a_chain_of_a_larger_network_is_refused(rt: HostRuntime) {
    let chain = four_steps(&rt, &generators(&rt, rt.alloc(), 3));
    let mut smaller = generators(&rt, rt.alloc(), 2);
    let before = text_of(&rt, rt.alloc(), &smaller);
    assert!(rt; lacks(&smaller, 2));
    assert!(rt; smaller.install(2, chain) == Err(Refused::NoSuch));
    assert!(rt; before == text_of(&rt, rt.alloc(), &smaller));
}

/// The exchange of the first so many of the generators.
fn shared(rt: &impl Abort, alloc: Global, count: usize) -> Exchange<Model>
    ensures limit { result.executive.network.micro_limit ≡ 100 }
    ensures until { result.executive.until ≡ 5 }
{
    exchange_of(rt, alloc, generators(rt, alloc, count))
}

/// The chain of the last of three components, all of which are given out.
fn last_chain(rt: &impl Abort, alloc: Global) -> Prepareds<Model>
    ensures component { result.run.start.component ≡ 2 }
    ensures limit { result.run.start.micro_limit ≡ 100 }
    ensures bound { result.run.start.before ≤ stamp 5 0 0 }
{
    let mut exchange = shared(rt, alloc, 3);
    let first = order_of(rt, &mut exchange, 0);
    let second = order_of(rt, &mut exchange, 1);
    let chain = chain_of(rt, &mut exchange, 2);
    exchange.give_back(first);
    exchange.give_back(second);
    drop(exchange);
    chain
}

/// Asserts that the chain of a third component is refused where there are two, and that nothing is seen to change.
fn assert_refused(
    rt: &impl Abort,
    alloc: Global,
    smaller: &mut Exchange<Model>,
    chain: Prepareds<Model>,
)
    requires component { chain.run.start.component ≡ 2 }
    requires limit { chain.run.start.micro_limit ≡ 100 }
    requires bound { chain.run.start.before ≤ stamp 5 0 0 }
    requires smaller_limit { smaller.old.executive.network.micro_limit ≡ 100 }
    requires smaller_until { smaller.old.executive.until ≡ 5 }
{
    let before = text_of(rt, alloc, smaller.executive());
    assert!(rt; lacks(smaller.executive(), 2));
    assert!(rt; smaller.finish(chain) == Err(NoSuch));
    assert!(rt; before == text_of(rt, alloc, smaller.executive()));
}

#[test]
fn an_order_of_a_larger_network_is_refused(rt: HostRuntime) {
    let chain = last_chain(&rt, rt.alloc());
    let mut smaller = shared(&rt, rt.alloc(), 2);
    assert_refused(&rt, rt.alloc(), &mut smaller, chain);
    drop(smaller);
}
