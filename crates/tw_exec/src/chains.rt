//! Chains: worked out apart from the executive, and installed.

ghost use Rattle.std.specs.Prelude.{◌≡◌, ◌↔◌, ◌≤◌, ◌⊎◌, Err, Some, IfErr, IfOk, IsSomeAnd, OnErr, length, slice_get};
ghost use Rattle.tw_atomic.specs.Atomic.{AreAlike};
ghost use Rattle.tw_exec.specs.Chains.{start_at, IsInstalledOn};
ghost use Rattle.tw_exec.specs.declared.refused.Refused.TheVariants.{NoSuch, OutOfMemory};
ghost use Rattle.tw_vtime.specs.Stamps.{max_microstep, stamp};
ghost use Rattle.tw_chain.specs.Kept.{IsReadyStart};

use crate::executive::Executive;
use crate::refused::Refused;
use tw_atomic::Atomic;
use tw_chain::{Prepared, Start};
use tw_process::Finished;
use tw_vtime::Stamp;

impl<M: Atomic> Executive<M> {
    /// A start of a chain of a component from where it stands, of at most `burst` steps, all before a stamp: its state, times and
    /// pending messages before that stamp are copied.
    ///
    /// Refused where there is no such component (15), or for want of memory (4).
    pub fn start(
        &self,
        component: usize,
        before: Stamp,
        burst: usize,
    ) -> Result<Start<M::State>, Refused>
        ensures start { let network = self.now.network in
            IfOk result (λ start. IsSomeAnd (slice_get self.now.world.processes component)
            (λ p. start ≡ start_at before burst component network p)) }
        ensures limit { IfOk result (λ start. start.micro_limit ≤ max_microstep) }
        ensures ready { IfOk result (λ start. (m : M)
            → slice_get self.now.network.models component ≡ Some m
            → IsReadyStart (M.valid m) (M.meaning m) start) }
        ensures no_such { result ≡ Err NoSuch ↔ length self.now.network.models ≤ component }
        ensures only { IfErr result (λ why. (why ≡ NoSuch) ⊎ (why ≡ OutOfMemory)) }
    {
        if component >= self.processes.len() {
            return Err(Refused::NoSuch);
        }
        Ok(self.processes[component].start(before, burst)?)
    }

    /// Installs a chain of a component: makes the steps of it that are the component's own next ones, as so many Step actions
    /// would, up to the first that is stale or for which room is refused; the others are run backwards.
    ///
    /// Refused where there is no such component (15); then nothing changes, and the chain is given up.
    pub fn install(&mut self, component: usize, chain: Prepared<M>) -> Result<Finished, Refused>
        requires component { chain.run.start.component ≡ component }
        requires limit { chain.run.start.micro_limit ≡ self.old.network.micro_limit }
        requires bound { chain.run.start.before ≤ stamp self.old.until 0 0 }
        requires alike { (m : M) → slice_get self.old.network.models component ≡ Some m
            → AreAlike M.meaning M.undone m chain.model }
        ensures installed { IfOk result (IsInstalledOn M.meaning chain self.old self.new) }
        ensures no_such { result ≡ Err NoSuch ↔ length self.old.network.models ≤ component }
        ensures only { IfErr result (λ why. why ≡ NoSuch) }
        ensures stays { OnErr result (self.new ≡ self.old) }
    {
        if component >= self.processes.len() {
            return Err(Refused::NoSuch);
        }
        chain.facts();
        let process = &mut self.processes[component];
        Ok(process.install(chain))
    }
}
