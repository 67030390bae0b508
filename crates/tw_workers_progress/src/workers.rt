//! A run by workers, its records and its fault.

ghost use Rattle.std.specs.Prelude.{◌≡◌, ◌⊎◌, IfErr, IfOk};
ghost use Rattle.tw_any_model.specs.AnyModel.{any_meaning};
ghost use Rattle.tw_exchange.specs.Ends.{IsEnd};
ghost use Rattle.tw_exchange.specs.Exchanged.{IsNotAhead};
ghost use Rattle.tw_network.specs.Contents.{network_of};
ghost use Rattle.tw_workers.specs.Runs.{CanBeFull};
ghost use Rattle.tw_workers_progress.specs.Settings.{IsSet};
ghost use Rattle.tw_theory.specs.Simulator.{sequential};
ghost use Rattle.tw_vtime.specs.declared.refusal.Refusal.TheVariants as refusal;

use std::alloc::Global;
use std::sync::Wait;
use std::thread::Threads;
use std::time::Clock;
use tw_actions::Fault;
use tw_any_model::{AnyModel, AnyState};
use tw_board::{Board, Publisher};
use tw_exec::Executive;
use tw_laws::endings::outcome_law;
use tw_msgs::Record;
use tw_progress::while_telling;
use tw_vtime::Refusal;
use tw_workers::{Effort, Open, Outcome, Setting, run_counted};

/// Runs an executive by workers, and answers the records and the fault of its network's sequential run. With `progress` it tells on
/// standard error how far it is, and at the end what it spent.
///
/// Refused for want of memory (4), or of nodes (12), only where the executive can come so far that a process would hold more than
/// 1,048,576 of them.
pub fn run_by_workers<R: Threads + Wait + Clock + Eprint + Sync>(
    rt: &R,
    alloc: Global,
    executive: Executive<AnyModel>,
    setting: Setting,
    progress: bool,
) -> Result<(Vec<Record>, Option<Fault>), Refusal>
    requires { IsSet setting }
    ensures records { let run = sequential
        (network_of any_meaning executive.network) executive.until in
        IfOk result (λ made. made.0.items ≡ run.records) }
    ensures fault { let run = sequential
        (network_of any_meaning executive.network) executive.until in
        IfOk result (λ made. made.1 ≡ run.fault) }
    ensures err { IfErr result (λ why. (why ≡ refusal.OutOfMemory) ⊎ (why ≡ refusal.Full)) }
    ensures full { IfErr result (λ why. why ≡ refusal.Full → CanBeFull any_meaning executive) }
{
    executive.facts();
    outcome_law::<AnyState>();
    let (ended, effort) = run_told(rt, alloc, executive, setting, progress);
    if progress {
        tell_effort(rt, &ended, effort);
    }
    match ended {
        Ok(Outcome::Complete(records)) => Ok((records, None)),
        Ok(Outcome::Fault(records, fault)) => Ok((records, Some(fault))),
        Err(why) => Err(why),
    }
}

/// How the workers' run of an executive ends. It posts on a board of its own, and tells how far it is where that is asked for.
fn run_told<R: Threads + Wait + Clock + Eprint + Sync>(
    rt: &R,
    alloc: Global,
    executive: Executive<AnyModel>,
    setting: Setting,
    progress: bool,
) -> (Result<Outcome, Refusal>, Effort)
    requires { IsSet setting }
    ensures outcome { IfOk result.0 (IsEnd any_meaning executive.network executive.until) }
    ensures err { IfErr result.0 (λ why. (why ≡ refusal.OutOfMemory) ⊎ (why ≡ refusal.Full)) }
    ensures full { IfErr result.0 (λ why. why ≡ refusal.Full → CanBeFull any_meaning executive) }
{
    let Ok((mut board, publisher)) = Board::new(alloc) else {
        return (Err(Refusal::OutOfMemory), Effort::nothing());
    };
    if !progress {
        return run_posting(rt, alloc, executive, setting, publisher);
    }
    let Ok(reader) = board.reader() else {
        return (Err(Refusal::OutOfMemory), Effort::nothing());
    };
    let until = executive.until();
    while_telling(
        rt,
        reader,
        until,
        move || -> (Result<Outcome, Refusal>, Effort)
            requires not_ahead { IsNotAhead publisher executive }
            requires set { IsSet setting }
            ensures outcome { IfOk result.0 (IsEnd any_meaning executive.network executive.until) }
            ensures err { IfErr result.0
                (λ why. (why ≡ refusal.OutOfMemory) ⊎ (why ≡ refusal.Full)) }
            ensures full { IfErr result.0
                (λ why. why ≡ refusal.Full → CanBeFull any_meaning executive) }
        { run_posting(rt, alloc, executive, setting, publisher) },
    )
}

/// How the workers' run of an executive ends, which posts how far it is.
fn run_posting<R: Threads + Wait + Sync>(
    rt: &R,
    alloc: Global,
    executive: Executive<AnyModel>,
    setting: Setting,
    publisher: Publisher,
) -> (Result<Outcome, Refusal>, Effort)
    requires not_ahead { IsNotAhead publisher executive }
    requires set { IsSet setting }
    ensures outcome { IfOk result.0 (IsEnd any_meaning executive.network executive.until) }
    ensures err { IfErr result.0 (λ why. (why ≡ refusal.OutOfMemory) ⊎ (why ≡ refusal.Full)) }
    ensures full { IfErr result.0 (λ why. why ≡ refusal.Full → CanBeFull any_meaning executive) }
{
    let (ended, _, effort) = run_counted(rt, alloc, executive, setting, &Open, publisher);
    match ended {
        Ok(outcome) => (Ok(outcome), effort),
        Err(fault) => {
            fault.executive.facts();
            (Err(Refusal::from(fault.why)), effort)
        }
    }
}

/// Tells on standard error what a run came to, and what it spent.
fn tell_effort<R: Eprint>(rt: &R, ended: &Result<Outcome, Refusal>, effort: Effort) {
    let records = match ended {
        Ok(Outcome::Complete(trace) | Outcome::Fault(trace, ..)) => trace.len(),
        Err(_) => return,
    };
    let Effort {
        rollbacks,
        slept,
        stepped_back,
        ..
    } = effort;
    let (ones, rest) = (effort.useful() / 1_000, effort.useful() % 1_000);
    let _ = eprintln!(rt;
        "twarp: {records} records, {ones}.{rest:03} of the steps useful, {rollbacks} rollbacks, workers slept {slept} times and stepped back {stepped_back} times"
    );
}
