//! Counts, figures and observations, gathered while a network is simulated.

ghost use Rattle.std.specs.Prelude.{◌≡◌, ◌≤◌, ◌<◌, ◌↔◌, ◌++◌, ◌∷◌, [], ℕ, ℤ, List, IfOk, IsErrOf, OnOk, length, map};
ghost use Rattle.tw_figures.specs.Gathered.{IsGathered, followed_in, followed_in_all, followed_of_all, start_words};
ghost use Rattle.tw_network.specs.Contents.{network_of};
ghost use Rattle.tw_rounds.specs.Parts.{IsSimulating};
ghost use Rattle.tw_rounds.specs.declared.refused.SeqRefused.TheVariants.{BadTick};
ghost use Rattle.tw_theory.specs.Simulator.{sequential};
ghost use Rattle.tw_stats.specs.Gathering.{BeforeEnd, IsGathering, IsMade, run_ticks};
ghost use Rattle.tw_vtime.specs.Stamps.{max_tick};

use std::alloc::{AllocError, Global};
use tw_atomic::Atomic;
use tw_figures::{Gatherer, Labels};
use tw_listen::{Listener, Reached};
use tw_msgs::{Record, Words};
use tw_network::Network;
use tw_rounds::{Advanced, Fault, SeqRefused, Simulation, advance, begin};

/// A run of a network that is made.
#[derive(Clone, Copy, Debug)]
pub struct MadeRun<'a> {
    /// Its records, in the order of its trace.
    pub records: &'a [Record],
    /// The limit fault that ended it.
    pub fault: Option<Fault>,
}

/// What is gathered of a network's run.
#[derive(Debug, Drop)]
pub(crate) struct Gathering {
    /// The counts of each component, the courses of its figures and its observations, from a tick on.
    pub(crate) gathered: Gatherer,
    /// The limit fault that ended the run.
    pub(crate) fault: Option<Fault>,
    /// How many ticks the run has: up to its end tick, or up to that of its fault.
    pub(crate) ticks: u64,
}

/// Simulates a network up to the end tick `until` and gathers, from the tick `from` on, the counts of its components, the
/// courses of their figures and their observations. After each round the listener hears how far the run is.
///
/// Refused by [`SeqRefused::BadTick`] (10) exactly where `until` is above 1,099,511,627,774, and by
/// [`SeqRefused::OutOfMemory`] (4) where a growth of memory was refused, or a count or a sum would pass the range of its
/// type.
pub(crate) fn gather<M: Atomic, L: Listener>(
    alloc: Global,
    network: &Network<M>,
    labels: &[Labels],
    from: u64,
    until: u64,
    listener: &mut L,
) -> Result<Gathering, SeqRefused>
    requires { length labels.now ≡ length network.now.models }
    ensures gathering { let net = network_of M.meaning network.now in let run = sequential net until in
        IfOk result (IsGathering (start_words net) run.records run.fault labels.now from until) }
    ensures bad_tick { IsErrOf result BadTick ↔ (max_tick < until) }
{
    network.facts();
    let simulation = begin(alloc, network, until)?;
    let mut gathered = start(alloc, network, labels, from)?;
    let fault = follow(alloc, network, simulation, &mut gathered, listener)?;
    Ok(gathering_of(gathered, until, fault))
}

/// The same of a run that is made. Refused for want of memory (4), or where a count or a sum would pass the range of its type (4).
pub(crate) fn gather_made<M: Atomic>(
    alloc: Global,
    network: &Network<M>,
    labels: &[Labels],
    from: u64,
    until: u64,
    run: &MadeRun<'_>,
) -> Result<Gathering, AllocError>
    requires labels { length labels.now ≡ length network.now.models }
    requires until { until ≤ max_tick }
    requires made { IsMade (sequential (network_of M.meaning network.now) until) run.now }
    ensures gathering { let net = network_of M.meaning network.now in let run = sequential net until in
        IfOk result (IsGathering (start_words net) run.records run.fault labels.now from until) }
{
    network.facts();
    let mut gathered = start(alloc, network, labels, from)?;
    gathered.take_all(run.records)?;
    Ok(gathering_of(gathered, until, run.fault))
}

/// What is gathered of a run that ends so.
fn gathering_of(gathered: Gatherer, until: u64, fault: Option<Fault>) -> Gathering
    requires { BeforeEnd fault }
    ensures gathered { result.gathered ≡ gathered }
    ensures fault { result.fault ≡ fault }
    ensures ticks { result.ticks ≡ run_ticks until fault }
{
    let ticks = match &fault {
        Some(fault) => fault.stamp.tick(),
        None => until,
    };
    Gathering {
        gathered,
        fault,
        ticks,
    }
}

/// Makes the rounds of a run, each of whose records are gathered. Refused as [`gather`] is, but for the end tick.
fn follow<M: Atomic, L: Listener>(
    alloc: Global,
    network: &Network<M>,
    mut simulation: Simulation<M::State>,
    gathered: &mut Gatherer,
    listener: &mut L,
) -> Result<Option<Fault>, AllocError>
    requires { IsSimulating M.valid M.meaning network.now [] simulation }
    ensures gathered { let run = sequential (network_of M.meaning network.now) simulation.until in
        (from : ℕ) (starts : List (List ℤ)) → IsGathered from starts [] gathered.old
        → OnOk result (IsGathered from starts run.records gathered.new) }
    ensures followed { followed_of_all gathered.new.members.items
        ≡ followed_of_all gathered.old.members.items }
    ensures fault { let run = sequential (network_of M.meaning network.now) simulation.until in
        IfOk result (λ fault. fault ≡ run.fault) }
{
    network.facts();
    let mut outputs = Vec::new(alloc);
    let mut transitions = Vec::new(alloc);
    // All records, also those that do not count.
    let mut seen: u64 = 0;
    loop {
        let step = advance(
            alloc,
            network,
            &mut simulation,
            &mut outputs,
            &mut transitions,
        )?;
        match step {
            Advanced::Round => {
                outputs.append(&mut transitions)?;
                let records = outputs.as_slice();
                gathered.take_all(records)?;
                seen = seen.saturating_add(records.len() as u64);
                listener.hear(Reached::after(records, seen));
                outputs.clear();
            }
            Advanced::End(fault) => {
                gathered.take_all(outputs.as_slice())?;
                return Ok(fault);
            }
        }
    }
}

/// Nothing gathered yet of the components of a network, of which is told from the tick `from` on. Refused for want of
/// memory (4).
fn start<M: Atomic>(
    alloc: Global,
    network: &Network<M>,
    labels: &[Labels],
    from: u64,
) -> Result<Gatherer, AllocError>
    requires { length labels.now ≡ length network.now.models }
    ensures gathered { let net = network_of M.meaning network.now in
        IfOk result (IsGathered from (start_words net) []) }
    ensures followed { IfOk result (λ g. followed_of_all g.members.items ≡ followed_in_all labels.now) }
{
    let mut gathered = Gatherer::new(alloc, from);
    for (component, label) in labels.iter().enumerate() {
        let model = network.model(component);
        add(alloc, model, label, &mut gathered)?;
    }
    Ok(gathered)
}

/// One component more, in its start state. Refused for want of memory (4).
fn add<M: Atomic>(
    alloc: Global,
    model: &M,
    labels: &Labels,
    gathered: &mut Gatherer,
) -> Result<(), AllocError>
    ensures gathered { let means = M.meaning model.now in
        (from : ℕ) (starts : List (List ℤ)) → IsGathered from starts [] gathered.old
        → OnOk result (IsGathered from (starts ++ means.words means.start ∷ []) [] gathered.new) }
    ensures followed { OnOk result (followed_of_all gathered.new.members.items
        ≡ followed_of_all gathered.old.members.items ++ followed_in labels.now ∷ []) }
{
    let state = model.start(alloc)?;
    let mut words = Vec::new(alloc);
    model.words(alloc, &state, &mut words)?;
    gathered.add(alloc, labels, &Words::from(words))
}
