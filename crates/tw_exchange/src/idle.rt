//! Whether there is anything to post or to deliver.

ghost use Rattle.std.specs.List.{AllByRecursion as Each};
ghost use Rattle.std.specs.Prelude.{◌≡◌, ◌<◌};
ghost use Rattle.tw_exchange.specs.Sweeping.{is_idle};
ghost use Rattle.tw_theory.specs.Exchange.{all_empty};
ghost use Rattle.tw_vtime.specs.Stamps.{never};

use tw_atomic::Atomic;
use tw_exec::Executive;
use tw_process::Process;

/// Whether no mailbox holds anything.
pub(crate) fn all_empty<M: Atomic>(executive: &Executive<M>) -> bool
    ensures { result ≡ all_empty executive.now.world.mail }
{
    executive.facts();
    for component in 0..executive.network().len() {
        if !executive.mail(component).is_empty() {
            return false;
        }
    }
    true
}

/// Whether nothing of a component is outgoing, and nothing that it owes is overdue.
pub(crate) fn is_idle<M: Atomic>(process: &Process<M>) -> bool
    requires { Each (λ m. m.stamp < never) process.now.process.owed }
    ensures { result ≡ is_idle process.now.process }
{
    let lists = process.lists();
    if lists.outgoing_len() > 0 {
        return false;
    }
    if lists.owed_len() == 0 {
        return true;
    }
    !lists.least_owed().is_overdue(process.next())
}
