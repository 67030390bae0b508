//! What is told of a run.

ghost use Rattle.std.specs.Prelude.{◌≡◌, ◌≤◌, ◌<◌, ◌-◌, ◌↔◌, ℤ, IfOk, IsErrOf, List, Option, length, map, max};
ghost use Rattle.std.specs.List.{All, AllZip};
ghost use Rattle.tw_figures.specs.Labelled.{label};
ghost use Rattle.tw_figures.specs.declared.labels.Labels.{Labels as TheLabels};
ghost use Rattle.tw_msgs.specs.declared.record.Record.{Record as TheRecord};
ghost use Rattle.tw_network.specs.Contents.{network_of};
ghost use Rattle.tw_rounds.specs.declared.refused.SeqRefused.TheVariants.{BadTick};
ghost use Rattle.tw_stats.specs.Gathering.{BeforeEnd, IsGathering, IsMade};
ghost use Rattle.tw_stats.specs.Reports.{IsReport, IsReportOf, TellsFigure, TellsObservation, TellsPart, first_tick};
ghost use Rattle.tw_theory.specs.Simulator.{Fault as TheFault, sequential};
ghost use Rattle.tw_vtime.specs.Stamps.{max_tick};

use crate::gathering::{Gathering, MadeRun, gather, gather_made};
use std::alloc::{AllocError, Global};
use tw_atomic::Atomic;
use tw_figures::{Counts, Course, Labels, Member, Observed, Told, Watch};
use tw_listen::Listener;
use tw_network::Network;
use tw_rounds::{Fault, SeqRefused};

/// What is told of a component.
#[derive(Debug, Drop)]
pub struct Part {
    /// What it did.
    pub counts: Counts,
    /// Its figures, in their order.
    pub figures: Vec<Told>,
    /// Its observations, in their order.
    pub observations: Vec<Observed>,
}

/// What is told of a run.
#[derive(Debug, Drop)]
pub struct Report {
    /// The components, in order.
    pub parts: Vec<Part>,
    /// The tick from which on is told, where one was asked for.
    pub from: Option<u64>,
    /// The end tick.
    pub until: u64,
    /// The time that the figures are of, in ticks: from that tick, or else from the start, up to the end tick, or to the
    /// tick of the fault that ended the run.
    pub ticks: u64,
    /// How many records there are from that tick on.
    pub records: u64,
    /// The greatest microstep of one of these plus one; 0 where there is none.
    pub microsteps: u64,
    /// The limit fault that ended the run.
    pub fault: Option<Fault>,
}

/// Simulates a network up to the end tick `until` and tells the counts, the figures and the observations of its components: of the
/// records of its sequential run, over its time, which is up to the end tick, or up to that of the fault that ended the run. With
/// `from` it tells them from that tick on: the records before it do not count, a figure comes to it with the value that they left,
/// and of an observation what was added up until then is taken away. Where the run ends before it, no record counts, each figure
/// is over no time, and nothing was observed. After each round the listener hears how far the run is.
///
/// Refused by [`SeqRefused::BadTick`] (10) exactly where `until` is above 1,099,511,627,774, and by
/// [`SeqRefused::OutOfMemory`] (4) where a growth of memory was refused, or a count or a sum would pass the range of its
/// type.
pub fn report_of<M: Atomic, L: Listener>(
    alloc: Global,
    network: &Network<M>,
    labels: &[Labels],
    from: Option<u64>,
    until: u64,
    listener: &mut L,
) -> Result<Report, SeqRefused>
    requires { length labels.now ≡ length network.now.models }
    ensures report { let net = network_of M.meaning network.now in
        IfOk result (IsReport net from until (map label labels.now)) }
    ensures in_time { IfOk result (λ r. BeforeEnd r.fault) }
    ensures bad_tick { IsErrOf result BadTick ↔ (max_tick < until) }
{
    let first = from.unwrap_or(0);
    let gathering = gather(alloc, network, labels, first, until, listener)?;
    Ok(report_on(alloc, &gathering, from, until)?)
}

/// Tells the same of a run that is made: of its records and its fault, which are those of the network's sequential run.
///
/// Refused for want of memory (4), or where a count or a sum would pass the range of its type (4).
pub fn report_of_made<M: Atomic>(
    alloc: Global,
    network: &Network<M>,
    labels: &[Labels],
    from: Option<u64>,
    until: u64,
    run: &MadeRun<'_>,
) -> Result<Report, AllocError>
    requires labels { length labels.now ≡ length network.now.models }
    requires until { until ≤ max_tick }
    requires made { IsMade (sequential (network_of M.meaning network.now) until) run.now }
    ensures report { let net = network_of M.meaning network.now in
        IfOk result (IsReport net from until (map label labels.now)) }
    ensures in_time { IfOk result (λ r. BeforeEnd r.fault) }
{
    let first = from.unwrap_or(0);
    let gathering = gather_made(alloc, network, labels, first, until, run)?;
    report_on(alloc, &gathering, from, until)
}

/// Tells of what was gathered of a run up to the end tick `until`, from the tick `from` on. Refused for want of memory (4), or where
/// a sum would pass its range (4).
fn report_on(
    alloc: Global,
    gathering: &Gathering,
    from: Option<u64>,
    until: u64,
) -> Result<Report, AllocError>
    requires { All (λ m. All (λ c. c.since ≤ max (first_tick from) gathering.now.ticks) m.courses.items)
        gathering.now.gathered.members.items }
    ensures report { (starts : List (List ℤ)) (records : List TheRecord) (fault : Option TheFault) (labels : List TheLabels)
        → length labels ≡ length starts
        → IsGathering starts records fault labels (first_tick from) until gathering.now
        → IfOk result (IsReportOf starts records fault from until (map label labels)) }
    ensures fault { IfOk result (λ r. r.fault ≡ gathering.now.fault) }
{
    let first = from.unwrap_or(0);
    let end = gathering.ticks.max(first);
    let parts = tell_all(alloc, gathering.gathered.members.as_slice(), first, end)?;
    Ok(Report {
        parts,
        from,
        until,
        ticks: end - first,
        records: gathering.gathered.records,
        microsteps: gathering.gathered.microsteps,
        fault: gathering.fault,
    })
}

/// What is told of each component over the ticks from `from` on and before `end`. Refused for want of memory (4), or where a
/// sum would pass its range (4).
fn tell_all(alloc: Global, members: &[Member], from: u64, end: u64) -> Result<Vec<Part>, AllocError>
    requires { All (λ m. All (λ c. c.since ≤ end) m.courses.items) members.now }
    ensures { IfOk result
        (λ parts. AllZip (TellsPart from (end - from)) members.now parts.items) }
{
    let mut parts = Vec::new(alloc);
    for member in members {
        parts.push(Part {
            counts: member.counts,
            figures: tell(alloc, member.courses.as_slice(), from, end)?,
            observations: observe(alloc, member.watches.as_slice())?,
        })?;
    }
    Ok(parts)
}

/// What is told of figures over the ticks from `from` on and before `end`. Refused for want of memory (4), or where a sum
/// would pass its range (4).
fn tell(alloc: Global, courses: &[Course], from: u64, end: u64) -> Result<Vec<Told>, AllocError>
    requires { All (λ c. c.since ≤ end) courses.now }
    ensures { IfOk result
        (λ figures. AllZip (TellsFigure from (end - from)) courses.now figures.items) }
{
    let mut figures = Vec::new(alloc);
    for course in courses {
        let Some(told) = course.told(from, end) else {
            return Err(AllocError);
        };
        figures.push(told)?;
    }
    Ok(figures)
}

/// What is told of observations. Refused for want of memory (4).
fn observe(alloc: Global, watches: &[Watch]) -> Result<Vec<Observed>, AllocError>
    ensures { IfOk result (λ observations. AllZip TellsObservation watches.now observations.items) }
{
    let mut observations = Vec::new(alloc);
    for watch in watches {
        observations.push(watch.observed())?;
    }
    Ok(observations)
}
