//! An executive, how it begins, and what is read of it.

ghost use Rattle.std.specs.Prelude.{◌≡◌, ◌≢◌, ◌<◌, ◌↔◌, IfOk, IfErr, IsErrOf, IsSomeAnd, Some, [], length, replicate, slice_get};
ghost use Rattle.std.specs.Arc.{arc_value};
ghost use Rattle.tw_exec.specs.Running.{start, AreNew, IsSoundly, committed_records};
ghost use Rattle.tw_exec.specs.declared.refused.StartRefused.TheVariants as refused;
ghost use Rattle.tw_msgs.specs.Counting.{total};
ghost use Rattle.tw_network.specs.Contents.{network_of};
ghost use Rattle.tw_theory.specs.Contents.{Aggressive};
ghost use Rattle.tw_theory.specs.Executive.{column_of, mail_of};
ghost use Rattle.tw_theory.specs.Simulator.{records_before};
ghost use Rattle.tw_theory.specs.Traces.{IsMerged, least_line};
ghost use Rattle.tw_vtime.specs.Stamps.{max_tick};

use crate::lines::least_line;
use crate::refused::StartRefused;
use std::alloc::{AllocError, AllocFailed, Global};
use std::marker::Model;
use std::sync::Arc;
use tw_atomic::Atomic;
use tw_fossils::{Column, into_trace};
use tw_mail::Mailboxes;
use tw_msgs::{Item, Record};
use tw_network::Network;
use tw_process::{Cancel, Process};
use tw_vtime::Stamp;

/// An executive: a process, a mailbox and a column of committed records for each component, and global virtual time
/// (Jefferson 1985).
///
/// Contracts see the network, the end tick and the world of the theory. Every executive is sound, whatever was done to it
/// ([`facts`](Executive::facts)).
pub struct Executive<M: Atomic> {
    pub(crate) alloc: Global,
    pub(crate) network: Arc<Network<M>>,
    pub(crate) until: u64,
    // The stamp of the end tick: only steps before it are made.
    pub(crate) end: Stamp,
    pub(crate) gvt: Stamp,
    pub(crate) processes: Vec<Process<M>>,
    pub(crate) mail: Mailboxes,
    pub(crate) columns: Vec<Column>,
    // How many records the columns have.
    pub(crate) records: u64,
}

// Written out, since a derived one is spelt field by field, and proved, wherever one is let go.
impl<M: Atomic> Drop for Executive<M> {
    fn drop(self) {
        let Executive {
            alloc: _,
            network: _,
            until: _,
            end: _,
            gvt: _,
            processes: _,
            mail: _,
            columns: _,
            records: _,
        } = self;
    }
}

impl<M: Atomic> Model for Executive<M> {
    ghost use Rattle.std.specs.Prelude.{◌≡◌, length};
    ghost use Rattle.std.specs.Arc.{arc_value};
    ghost use Rattle.tw_exec.specs.Running.{Running, shown, IsHeld};
    ghost use Rattle.tw_msgs.specs.Counting.{total};

    ghost Value = { Running M M.State };

    ghost view = { λ e. record {
      network = arc_value e.network;
      until = e.until;
      world = shown e.processes.items e.mail.boxes e.columns.items e.gvt;
    } };

    ghost invariant = { λ e. IsHeld M.meaning (arc_value e.network) e.until e.end e.gvt
        e.processes.items e.mail.boxes e.columns.items
        × (e.records ≡ total length e.columns.items) };
}

impl<M: Atomic> Executive<M> {
    /// The executive of a network at its start, for a run that ends before a tick: every component at its model's start with
    /// its network inputs pending; global virtual time and all commit lines are 0.0.0. Steps that are taken back are
    /// cancelled aggressively: their anti-messages are made at once.
    ///
    /// Refused where the end tick is above the greatest tick, 1,099,511,627,774 (10), or for want of memory (4).
    pub fn new(alloc: Global, network: Network<M>, until: u64) -> Result<Self, StartRefused>
        ensures start { IfOk result (λ e. e ≡ start M.meaning network Aggressive until) }
        ensures bad_tick { IsErrOf result refused.BadTick ↔ (max_tick < until) }
    {
        Executive::with_cancel(alloc, network, until, Cancel::Aggressive)
    }

    /// The executive of a network as [`new`](Executive::new) makes it, for either way of cancelling: aggressive (Jefferson
    /// 1985), or lazy, where the anti-message of a message waits until its component has passed it by without sending it
    /// again (Gafni 1988).
    ///
    /// Refused as there. A component with more inputs than a process may hold nodes, 1,048,576, would be answered by 4 too; a network has
    /// at most 65,536.
    pub fn with_cancel(
        alloc: Global,
        network: Network<M>,
        until: u64,
        cancel: Cancel,
    ) -> Result<Self, StartRefused>
        ensures start { IfOk result (λ e. e ≡ start M.meaning network cancel until) }
        ensures bad_tick { IsErrOf result refused.BadTick ↔ (max_tick < until) }
    {
        let Ok(end) = Stamp::new(until, 0, 0) else {
            return Err(StartRefused::BadTick);
        };
        network.facts();
        let count = network.len();
        let shared = match Arc::new(alloc, network) {
            Ok(shared) => shared,
            Err(_) => return Err(StartRefused::OutOfMemory),
        };
        let processes = processes_of(alloc, &shared, count, cancel)?;
        let mail = Mailboxes::new(alloc, count)?;
        let columns = empty_columns(alloc, count)?;
        Ok(Executive {
            alloc,
            network: shared,
            until,
            end,
            gvt: Stamp::START,
            processes,
            mail,
            columns,
            records: 0,
        })
    }

    /// What is true of every executive: it is sound. So each column is what the sequential simulator does before the
    /// component's commit line, no line passes global virtual time or the sequential fault, and nothing that can still
    /// change stands before global virtual time.
    pub fn facts(&self)
        ensures { IsSoundly M.meaning self.now }
    {
        let _ = &self.alloc;
    }

    /// The network.
    pub fn network(&self) -> &Arc<Network<M>>
        ensures { arc_value result.now ≡ self.now.network }
    {
        &self.network
    }

    /// The end tick: only steps before it are made.
    pub fn until(&self) -> u64
        ensures { result ≡ self.now.until }
    {
        self.until
    }

    /// Global virtual time: nothing before it can change any more.
    pub fn gvt(&self) -> Stamp
        ensures { result ≡ self.now.world.gvt }
    {
        self.gvt
    }

    /// A component's commit line: its records before it are committed.
    pub fn line(&self, component: usize) -> Stamp
        requires { component < length self.now.network.models }
        ensures { IsSomeAnd (slice_get self.now.world.processes component)
            (λ p. result ≡ p.line) }
    {
        self.contents(component).line()
    }

    /// A component's committed records, in order: what the sequential simulator records of it before its commit line.
    pub fn committed(&self, component: usize) -> &[Record]
        requires { component < length self.now.network.models }
        ensures column { result.now ≡ column_of self.now.world.columns component }
        ensures sequential { let net = network_of M.meaning self.now.network in
            IsSomeAnd (slice_get self.now.world.processes component)
            (λ p. result.now ≡ records_before net self.now.until component p.line) }
    {
        self.columns[component].records()
    }

    /// How many records all components have committed.
    pub fn committed_len(&self) -> u64
        ensures { result ≡ total length self.now.world.columns }
    {
        self.records
    }

    /// A component's process.
    pub fn contents(&self, component: usize) -> &Process<M>
        requires { component < length self.now.network.models }
        ensures process { slice_get self.now.world.processes component ≡ Some result.now.process }
        ensures network { result.now.network ≡ self.now.network }
        ensures component { result.now.component ≡ component }
    {
        &self.processes[component]
    }

    /// The items in a component's mailbox, in order.
    pub fn mail(&self, component: usize) -> &[Item]
        requires { component < length self.now.network.models }
        ensures { result.now ≡ mail_of self.now.world.mail component }
    {
        self.mail.items(component)
    }

    /// The same records as [`trace`](Executive::trace), in the same order, but the records themselves, not copies: the executive is
    /// taken apart.
    ///
    /// It is refused for want of memory alone (4); then the executive is handed back as it was.
    pub fn into_trace(self, alloc: Global) -> Result<Vec<Record>, AllocFailed<Executive<M>>>
        ensures sequential { IfOk result (λ trace. trace.items ≡ committed_records M.meaning self) }
        ensures merged { IfOk result
            (λ trace. IsMerged (least_line self.world.processes) self.world trace.items) }
        ensures handed_back { IfErr result (λ failed. failed.value ≡ self) }
    {
        let line = least_line(self.processes.as_slice());
        let Executive {
            alloc: own,
            network,
            until,
            end,
            gvt,
            processes,
            mail,
            columns,
            records,
        } = self;
        match into_trace(alloc, columns, line) {
            Ok(trace) => Ok(trace),
            Err(failed) => Err(AllocFailed {
                value: Executive {
                    alloc: own,
                    network,
                    until,
                    end,
                    gvt,
                    processes,
                    mail,
                    columns: failed.value,
                    records,
                },
            }),
        }
    }
}

/// The processes of a network at its start.
fn processes_of<M: Atomic>(
    alloc: Global,
    network: &Arc<Network<M>>,
    count: usize,
    cancel: Cancel,
) -> Result<Vec<Process<M>>, StartRefused>
    requires { count ≡ length (arc_value network.now).models }
    ensures made { IfOk result
        (λ made. AreNew M.meaning (arc_value network.now) cancel made.items) }
    ensures count { IfOk result (λ made. length made.items ≡ count) }
    ensures no_tick { IfErr result (λ why. why ≢ refused.BadTick) }
{
    let mut processes = Vec::new(alloc);
    for component in 0..count {
        let process = Process::with_cancel(alloc, Arc::try_clone(network)?, component, cancel)?;
        processes.push(process)?;
    }
    Ok(processes)
}

/// So many columns of no records.
fn empty_columns(alloc: Global, count: usize) -> Result<Vec<Column>, AllocError>
    ensures { IfOk result (λ made. made.items ≡ replicate count []) }
{
    let mut columns = Vec::new(alloc);
    for _ in 0..count {
        columns.push(Column::new(alloc))?;
    }
    Ok(columns)
}
