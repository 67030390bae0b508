//! What the models tell of a run beforehand.

ghost use Rattle.std.specs.List.{AllByRecursion as Each};
ghost use Rattle.std.specs.Prelude.{◌≡◌, ◌≤◌, ◌↔◌, None, IsTrue};
ghost use Rattle.tw_network.specs.Contents.{network_of};
ghost use Rattle.tw_rounds.specs.InTime.{EndsInTime, IsInTime};
ghost use Rattle.tw_theory.specs.Simulator.{sequential};
ghost use Rattle.tw_vtime.specs.Stamps.{max_tick};

use tw_atomic::Atomic;
use tw_network::Network;
use tw_vtime::MAX_TICK;

/// Whether the models tell that no limit can be met in a run up to this end tick: each waits for a tick or more, and no
/// wait that begins before the end goes past the greatest tick. Where one of them tells nothing of it, the answer is no.
pub fn meets_no_limit<M: Atomic>(network: &Network<M>, until: u64) -> bool
    requires { until ≤ max_tick }
    ensures told { IsTrue result ↔ Each (λ m. IsInTime until (M.longest m)) network.now.models }
    ensures no_fault { IsTrue result
        → (sequential (network_of M.meaning network.now) until).fault ≡ None }
{
    network.facts();
    for component in 0..network.len() {
        if !ends_in_time(network.model(component), until) {
            return false;
        }
    }
    true
}

/// Whether a model tells that it always waits for a tick or more, and what it waits for from before this end tick is no
/// later than the greatest tick.
fn ends_in_time<M: Atomic>(model: &M, until: u64) -> bool
    requires { until ≤ max_tick }
    ensures told { IsTrue result ↔ IsInTime until (M.longest model.now) }
    ensures waits { IsTrue result → EndsInTime until (M.meaning model.now) }
{
    match model.longest_wait() {
        Some(longest) => longest <= MAX_TICK - until,
        None => false,
    }
}
