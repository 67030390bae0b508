//! Chains: steps worked out apart from the process, from a copy of where it stands.

ghost use Rattle.std.specs.Prelude.{◌≡◌, ◌≤◌, IfOk, Some, slice_get};
ghost use Rattle.tw_process.specs.Process.{start_of};
ghost use Rattle.tw_vtime.specs.Stamps.{max_microstep};
ghost use Rattle.tw_chain.specs.Kept.{IsReadyStart};

use crate::process::Process;
use std::alloc::AllocError;
use tw_atomic::Atomic;
use tw_chain::Start;
use tw_step::{Moment, copy_moment};
use tw_vtime::Stamp;

impl<M: Atomic> Process<M> {
    /// A start of a chain from here, of at most `burst` steps, all before a bound: state, last, due and the pending
    /// messages before the bound are copied. It is refused for want of memory alone (4).
    pub fn start(&self, before: Stamp, burst: usize) -> Result<Start<M::State>, AllocError>
        ensures start { IfOk result (λ start. start ≡ start_of before burst self.now) }
        ensures limit { IfOk result (λ start. start.micro_limit ≤ max_microstep) }
        ensures ready { IfOk result (λ start. (m : M)
            → slice_get self.now.network.models self.now.component ≡ Some m
            → IsReadyStart (M.valid m) (M.meaning m) start) }
    {
        let network = &*self.network;
        network.facts();
        let model = network.model(self.component);
        let Moment { state, last, due } = copy_moment(self.alloc, model, &self.moment)?;
        let messages = self.lists.pending_before(before)?;
        let limit = network.micro_limit();
        Ok(Start::new(
            state,
            last,
            due,
            limit,
            messages,
            self.component,
            before,
            burst,
        ))
    }
}
