//! The least commit line.

ghost use Rattle.std.specs.Prelude.{◌≡◌, map};
ghost use Rattle.tw_theory.specs.Traces.{least_line};

use tw_atomic::Atomic;
use tw_process::Process;
use tw_vtime::Stamp;

/// The least commit line; the end, where there are no processes.
pub(crate) fn least_line<M: Atomic>(processes: &[Process<M>]) -> Stamp
    ensures { result ≡ least_line (map (λ p. p.process) processes.now) }
{
    let mut least = Stamp::END;
    for process in processes {
        least = least.min(process.line());
    }
    least
}
