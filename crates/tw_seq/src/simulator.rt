//! The simulator: rounds up to an end tick, or to the first fault.

ghost use Rattle.std.specs.Prelude.{◌≡◌, ◌<◌, ◌↔◌, IfOk, IsErrOf};
ghost use Rattle.tw_network.specs.Contents.{network_of};
ghost use Rattle.tw_theory.specs.Simulator.{sequential};
ghost use Rattle.tw_vtime.specs.Stamps.{max_tick};

use std::alloc::Global;
use tw_atomic::Atomic;
use tw_listen::{Nobody, outcome_telling};
use tw_msgs::Record;
use tw_network::Network;
use tw_rounds::{Advanced, Fault, SeqRefused, advance, begin};

/// What a network does up to an end tick.
#[derive(Debug, Drop)]
pub struct Seq {
    /// The records, in trace order: by stamp, then component number.
    pub records: Vec<Record>,
    /// The limit fault that ended the run. The records are all those before its stamp.
    pub fault: Option<Fault>,
}

/// Simulates a network by the sequential abstract simulator (Chow and Zeigler 1994): in each round, of
/// the least time at which a component is due or an input comes, all outputs, their routing, and then
/// all transitions. It makes the rounds of a time before the tick `until`, up to the first fault.
///
/// Refused by [`SeqRefused::BadTick`] (10) exactly where `until` is above 1,099,511,627,774, and by
/// [`SeqRefused::OutOfMemory`] (4) where a growth of memory was refused. The network stays as it was.
pub fn simulate<M: Atomic>(
    alloc: Global,
    network: &Network<M>,
    until: u64,
) -> Result<Seq, SeqRefused>
    ensures records { IfOk result
        (λ seq. seq.records.items ≡ (sequential (network_of M.meaning network.now) until).records) }
    ensures fault { IfOk result
        (λ seq. seq.fault ≡ (sequential (network_of M.meaning network.now) until).fault) }
    ensures bad_tick { IsErrOf result SeqRefused.BadTick ↔ (max_tick < until) }
{
    let mut simulation = begin(alloc, network, until)?;
    let mut records = Vec::new(alloc);
    let mut transitions = Vec::new(alloc);
    loop {
        let step = advance(
            alloc,
            network,
            &mut simulation,
            &mut records,
            &mut transitions,
        )?;
        match step {
            Advanced::Round => records.append(&mut transitions)?,
            Advanced::End(fault) => return Ok(Seq { records, fault }),
        }
    }
}

/// The limit fault that ends the run of a network up to an end tick, or none: as [`simulate`] gives it, but no record
/// is kept, so that it takes no more memory for a longer run. Where the models tell beforehand that no limit can be met
/// ([`Atomic::longest_wait`]), no round is made. It is [`outcome_telling`] to which nobody listens.
///
/// Refused as [`simulate`] is: by [`SeqRefused::BadTick`] (10) exactly where `until` is above 1,099,511,627,774, and by
/// [`SeqRefused::OutOfMemory`] (4) where a growth of memory was refused.
pub fn outcome<M: Atomic>(
    alloc: Global,
    network: &Network<M>,
    until: u64,
) -> Result<Option<Fault>, SeqRefused>
    ensures fault { IfOk result
        (λ fault. fault ≡ (sequential (network_of M.meaning network.now) until).fault) }
    ensures bad_tick { IsErrOf result SeqRefused.BadTick ↔ (max_tick < until) }
{
    outcome_telling(alloc, network, until, &mut Nobody)
}
