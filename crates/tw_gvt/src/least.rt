//! The least stamp from which anything can still change.

ghost use Rattle.std.specs.Prelude.{◌≡◌, map, min};
ghost use Rattle.tw_gvt.specs.Least.{least_in};
ghost use Rattle.tw_theory.specs.Executive.{least_mail, least_next};

use tw_atomic::Atomic;
use tw_mail::Mailboxes;
use tw_process::Process;
use tw_vtime::Stamp;

/// The least of the next stamps of all processes, of the stamps of all items that are outgoing or in a mailbox, positive and anti, and
/// of all messages owed; or the end, where there is none. It takes no memory.
pub fn least_of<M: Atomic>(processes: &[Process<M>], mail: &Mailboxes) -> Stamp
    ensures { result ≡ min (least_next (map (λ p. p.process) processes.now))
        (least_mail mail.now.boxes) }
{
    let mut least = Stamp::END;
    for process in processes {
        least = least.min(least_in(process));
    }
    least.min(mail.least())
}

/// The least stamp that a process can still change, or the end.
fn least_in<M: Atomic>(process: &Process<M>) -> Stamp
    ensures { result ≡ least_in process.now.process }
{
    let lists = process.lists();
    process
        .next()
        .min(lists.least_outgoing())
        .min(lists.least_owed())
}
