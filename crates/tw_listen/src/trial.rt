//! The first rounds of a run, made to be looked at.

ghost use Rattle.std.specs.Prelude.{◌↔◌, ◌<◌, IsErrOf};
ghost use Rattle.tw_vtime.specs.Stamps.{max_tick};

use crate::reached::Reached;
use std::alloc::Global;
use tw_atomic::Atomic;
use tw_network::Network;
use tw_rounds::{Advanced, SeqRefused, advance, begin};

/// Who looks at the first rounds of a run. What it does with that is no part of the run.
pub trait Judge {
    /// Hears how far the run is, after a round, and answers whether another one is wanted.
    fn wants_more(&mut self, reached: Reached) -> bool;
}

/// Makes the rounds of the run of a network up to an end tick, from the first one on, for as long as a judge wants more of them and
/// the run goes on. Nothing of it is kept: it is there for the judge to see what a run costs.
///
/// Refused by [`SeqRefused::BadTick`] (10) exactly where `until` is above 1,099,511,627,774, and by [`SeqRefused::OutOfMemory`] (4) where a
/// growth of memory was refused.
pub fn try_out<M: Atomic, J: Judge>(
    alloc: Global,
    network: &Network<M>,
    until: u64,
    judge: &mut J,
) -> Result<(), SeqRefused>
    ensures bad_tick { IsErrOf result SeqRefused.BadTick ↔ (max_tick < until) }
{
    let mut simulation = begin(alloc, network, until)?;
    let mut outputs = Reached::nothing();
    let mut transitions = Reached::nothing();
    loop {
        let step = advance(
            alloc,
            network,
            &mut simulation,
            &mut outputs,
            &mut transitions,
        )?;
        match step {
            Advanced::Round => {
                if !judge.wants_more(outputs.with(transitions)) {
                    return Ok(());
                }
            }
            Advanced::End(_) => return Ok(()),
        }
    }
}
