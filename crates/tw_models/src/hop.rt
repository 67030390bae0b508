//! A model that draws its ports, values and waiting times by a linear congruential generator.
ghost use Rattle.std.specs.Prelude.{refl, ◌≡◌, ◌≤◌, ◌<◌, ◌↔◌, Ok, IsOk, IfOk, IsErrOf, ◌⊎◌};
ghost use Rattle.tw_atomic.specs.Atomic.{CanTurn, turned};
ghost use Rattle.tw_models.specs.Hop.{lcg, lcg_back, wait, drawn_item, stirred, stirred_all, unstirred, unstirred_all};
ghost use Rattle.tw_models.specs.declared.bad_model.BadModel.TheVariants.{BadPort, BadTick};

use crate::bad_model::BadModel;
use crate::remaining::{minus, plus};
use std::alloc::{AllocError, Global};
use std::marker::Model;
use tw_atomic::{Atomic, Outbox, Turn};

/// The multiplier of the generator.
const MULTIPLIER: u64 = 6_364_136_223_846_793_005;

/// Its inverse: the product of both is 1 modulo 2^64.
const INVERSE: u64 = 13_877_824_140_714_322_085;

/// The summand of the generator.
const SUMMAND: u64 = 1_442_695_040_888_963_407;

/// The greatest number of ports.
pub(crate) const MAX_PORTS: u64 = 16;

/// The greatest number of waiting times.
pub(crate) const MAX_SPREAD: u64 = 1_048_576;

/// The parameters of a hop, in range.
#[derive(Clone, Copy, Debug, PartialEq, Eq)]
pub struct Hop {
    seed: u64,
    ports: u64,
    spread: u64,
}

impl Model for Hop {
    ghost use Rattle.tw_models.specs.Parameters.{HopParameters, FitsHop};

    ghost Value = { HopParameters };

    ghost view = { λ h. record { seed = h.seed; ports = h.ports; spread = h.spread } };

    ghost invariant = { λ h. FitsHop (record { seed = h.seed; ports = h.ports; spread = h.spread }) };

    ghost inverse = { λ h. record { seed = h.seed; ports = h.ports; spread = h.spread } };
}

impl Hop {
    /// A hop that starts with the number `seed`, sends on ports below `ports`, and waits 1 to `spread`
    /// ticks. Refused with [`BadModel::BadPort`] (6) exactly where `ports` is not 1 to 16, and else
    /// with [`BadModel::BadTick`] (10) exactly where `spread` is not 1 to 1,048,576.
    pub fn new(seed: u64, ports: u64, spread: u64) -> Result<Hop, BadModel>
        ensures made { IfOk result
            (λ h. h ≡ record { seed = seed; ports = ports; spread = spread }) }
        ensures in_range { IsOk result
            ↔ ((1 ≤ ports) × (ports ≤ 16) × (1 ≤ spread) × (spread ≤ 1048576)) }
        ensures bad_port { IsErrOf result BadPort ↔ ((ports < 1) ⊎ (16 < ports)) }
        ensures bad_tick { IsErrOf result BadTick
            ↔ ((1 ≤ ports) × (ports ≤ 16) × ((spread < 1) ⊎ (1048576 < spread))) }
    {
        if ports < 1 || ports > MAX_PORTS {
            return Err(BadModel::BadPort);
        }
        if spread < 1 || spread > MAX_SPREAD {
            return Err(BadModel::BadTick);
        }
        Ok(Hop {
            seed,
            ports,
            spread,
        })
    }
}

/// The number that a hop draws from, and the time until its next output.
#[derive(Clone, Copy, Debug, PartialEq, Eq)]
pub struct HopState {
    pub x: u64,
    pub left: Option<u64>,
}

/// The next number.
fn lcg(x: u64) -> u64
    ensures { result ≡ lcg x }
{
    MULTIPLIER.wrapping_mul(x).wrapping_add(SUMMAND)
}

/// The number before.
fn lcg_back(x: u64) -> u64
    ensures { result ≡ lcg_back x }
{
    INVERSE.wrapping_mul(x.wrapping_sub(SUMMAND))
}

/// The waiting time that a number draws, in ticks.
fn wait(spread: u64, x: u64) -> u64
    requires some { 1 ≤ spread }
    requires fits { spread ≤ 1048576 }
    ensures { result ≡ wait spread x }
{
    1 + (x >> 33) % spread
}

/// The item that a number draws.
fn drawn_item(ports: u64, x: u64) -> (u8, i64)
    requires some { 1 ≤ ports }
    requires fits { ports ≤ 16 }
    ensures { result ≡ drawn_item ports x }
{
    (((x >> 48) % ports) as u8, ((x >> 32) % 1000) as i64)
}

/// The number after an item came.
fn stirred(x: u64, item: &(u8, i64)) -> u64
    ensures { result ≡ stirred x item.now }
{
    lcg(x.wrapping_add(item.1.cast_unsigned()))
}

/// The number before an item came.
fn unstirred(x: u64, item: &(u8, i64)) -> u64
    ensures { result ≡ unstirred x item.now }
{
    lcg_back(x).wrapping_sub(item.1.cast_unsigned())
}

/// The number after each item of a bag.
fn stirred_all(x: u64, bag: &[(u8, i64)]) -> u64
    ensures { result ≡ stirred_all x bag.now }
{
    let mut x = x;
    for item in bag {
        x = stirred(x, item);
    }
    x
}

/// The number before each item of a bag, the last one taken back first.
fn unstirred_all(x: u64, bag: &[(u8, i64)]) -> u64
    ensures { result ≡ unstirred_all x bag.now }
{
    let mut x = x;
    let mut left = bag.len();
    while left > 0 {
        left -= 1;
        x = unstirred(x, &bag[left]);
    }
    x
}

impl Atomic for Hop {
    ghost use Rattle.std.specs.Prelude.{Some};
    ghost use Rattle.tw_models.specs.Hop.{IsHop, hop_meaning, hop_undone};
    ghost use Rattle.tw_models.specs.HopLaws.{hop_stays_valid, hop_output_fits, hop_reverses};

    type State = HopState;

    type Residue = ();

    ghost meaning = { hop_meaning };

    ghost valid = { IsHop };

    ghost residue_of = { λ m turn s elapsed bag. tt };

    ghost undone = { λ m turn s elapsed bag residue. hop_undone turn s elapsed bag };

    ghost longest = { λ h. Some h.spread };

    fn start(&self, alloc: Global) -> Result<HopState, AllocError>
        ensures start { result ≡ Ok (hop_meaning self.now).start }
        ensures valid_state { IfOk result (IsHop self.now) }
    {
        let _ = alloc;
        Ok(HopState {
            x: self.seed,
            left: Some(wait(self.spread, self.seed)),
        })
    }

    fn ta(&self, state: &HopState) -> Option<u64> {
        state.left
    }

    fn longest_wait(&self) -> Option<u64> {
        Some(self.spread)
    }

    fn output(&self, state: &HopState, outbox: &mut Outbox) {
        outbox.push(drawn_item(self.ports, state.x));
    }

    fn forward(
        &self,
        alloc: Global,
        state: &mut HopState,
        turn: Turn,
        elapsed: u64,
        bag: &[(u8, i64)],
    ) -> Result<(), AllocError>
        requires { CanTurn (IsHop self.now) (hop_meaning self.now) turn state.old elapsed bag.now }
        ensures state { state.new ≡ turned (hop_meaning self.now) turn state.old elapsed bag.now }
        ensures residue { result ≡ Ok tt }
    {
        let _ = alloc;
        match turn {
            Turn::Int => {
                state.x = lcg(state.x);
                state.left = Some(wait(self.spread, state.x));
            }
            Turn::Ext => {
                state.x = stirred_all(state.x, bag);
                state.left = minus(state.left, elapsed);
            }
            Turn::Con => {
                let drawn = lcg(state.x);
                state.x = stirred_all(drawn, bag);
                state.left = Some(wait(self.spread, drawn));
            }
        }
        Ok(())
    }

    fn transition(
        &self,
        alloc: Global,
        state: &mut HopState,
        turn: Turn,
        elapsed: u64,
        bag: &[(u8, i64)],
    ) -> Result<(), AllocError>
        requires { CanTurn (IsHop self.now) (hop_meaning self.now) turn state.old elapsed bag.now }
        ensures state { state.new ≡ turned (hop_meaning self.now) turn state.old elapsed bag.now }
        ensures succeeds { result ≡ Ok tt }
    {
        self.forward(alloc, state, turn, elapsed, bag)
    }

    fn back(&self, state: &mut HopState, turn: Turn, elapsed: u64, bag: &[(u8, i64)], residue: ()) {
        let () = residue;
        match turn {
            Turn::Int => {
                state.x = lcg_back(state.x);
                state.left = Some(elapsed);
            }
            Turn::Ext => {
                state.x = unstirred_all(state.x, bag);
                state.left = plus(state.left, elapsed);
            }
            Turn::Con => {
                state.x = lcg_back(unstirred_all(state.x, bag));
                state.left = Some(elapsed);
            }
        }
    }

    fn words(
        &self,
        alloc: Global,
        state: &HopState,
        words: &mut Vec<i128>,
    ) -> Result<(), AllocError> {
        let _ = alloc;
        words.push(state.x as i128)?;
        Ok(())
    }

    fn same(&self, one: &HopState, other: &HopState) -> bool {
        one == other
    }

    fn copy(&self, alloc: Global, state: &HopState) -> Result<HopState, AllocError>
        ensures { result ≡ Ok state.now }
    {
        let _ = alloc;
        Ok(*state)
    }

    ghost stays_valid = { hop_stays_valid };

    ghost output_fits = { hop_output_fits };

    ghost reverses = { λ m turn s elapsed bag can. hop_reverses m turn s elapsed bag can };
}
