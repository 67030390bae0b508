//! The next step of a process.

ghost use Rattle.std.specs.Prelude.{◌≡◌, ◌≢◌, ◌↔◌, ◌<◌, Err, IfErr, IfOk, OnErr, OnOk};
ghost use Rattle.tw_process.specs.Process.{IsStepped, IsStop, SameButSpare};
ghost use Rattle.tw_process.specs.declared.refused.StepRefused.TheVariants.{NothingDue};
ghost use Rattle.tw_theory.specs.Contents.{next};
ghost use Rattle.tw_vtime.specs.Stamps.{never, phase_of};

use crate::entry::Entry;
use crate::process::Process;
use crate::refused::StepRefused;
use tw_atomic::Atomic;
use tw_msgs::RecordKind;
use tw_step::{Home, output_step, routed, transition_step};
use tw_vtime::Stamp;

impl<M: Atomic> Process<M> {
    /// Makes the next step, and answers its stamp and kind: the output of a time, or its transition.
    ///
    /// Where it is refused, the process is as it was: no step is due (16), the next own step would pass a limit (2, 3),
    /// the lists would have too many nodes (12), or memory was refused (4). The last can come in place of 2, 3 and 12,
    /// never of 16.
    pub fn step(&mut self) -> Result<(Stamp, RecordKind), StepRefused>
        ensures stepped { IfOk result
            (λ done. IsStepped M.meaning self.old self.new done.0 done.1) }
        ensures stays { OnErr result (SameButSpare self.old self.new) }
        ensures stop { IfErr result (IsStop M.meaning self.old) }
        ensures nothing_due { next self.old.process ≡ never ↔ result ≡ Err NothingDue }
    {
        let stamp = self.next();
        if stamp.is_end() {
            return Err(StepRefused::NothingDue);
        }
        if stamp.is_output() {
            self.make_output(stamp)?;
            return Ok((stamp, RecordKind::Out));
        }
        let kind = self.make_transition(stamp)?;
        Ok((stamp, kind))
    }

    /// Makes the output of this stamp.
    fn make_output(&mut self, stamp: Stamp) -> Result<(), StepRefused>
        requires is_next { stamp ≡ next self.old.process }
        requires is_due { stamp < never }
        requires is_output { phase_of stamp ≡ 0 }
        ensures stepped { OnOk result (IsStepped M.meaning self.old self.new stamp RecordKind.Out) }
        ensures stays { OnErr result (SameButSpare self.old self.new) }
        ensures stop { IfErr result (IsStop M.meaning self.old) }
        ensures due { result ≢ Err NothingDue }
    {
        let network = &*self.network;
        network.facts();
        let model = network.model(self.component);
        let step = output_step(self.alloc, model, self.component, &self.moment, stamp)?;
        let sent = routed(
            self.alloc,
            network,
            self.component,
            stamp.transition(),
            &step.done.bag,
        )?;
        self.lists.reserve_to_send(&sent, self.cancel)?;
        self.history.reserve(1)?;
        self.lists.send_all(&sent, self.cancel);
        self.history.push_back_reserved(Entry {
            step,
            consumed: 0,
            sent: sent.len(),
        });
        self.moment.after_output(stamp);
        Ok(())
    }

    /// Makes the transition of this stamp.
    fn make_transition(&mut self, stamp: Stamp) -> Result<RecordKind, StepRefused>
        requires is_next { stamp ≡ next self.old.process }
        requires is_due { stamp < never }
        requires is_transition { phase_of stamp ≡ 1 }
        ensures stepped { IfOk result (λ kind. IsStepped M.meaning self.old self.new stamp kind) }
        ensures stays { OnErr result (SameButSpare self.old self.new) }
        ensures stop { IfErr result (IsStop M.meaning self.old) }
        ensures due { result ≢ Err NothingDue }
    {
        self.history.reserve(1)?;
        let bag = self.lists.consume_bag(stamp)?;
        let consumed = bag.len();
        let network = &*self.network;
        network.facts();
        let model = network.model(self.component);
        let home = Home {
            component: self.component,
            micro_limit: network.micro_limit(),
        };
        let step = match transition_step(self.alloc, model, home, &mut self.moment, stamp, bag) {
            Ok(step) => step,
            Err(refused) => {
                self.lists.restore(consumed);
                return Err(refused.into());
            }
        };
        let kind = step.done.kind;
        self.history.push_back_reserved(Entry {
            step,
            consumed,
            sent: 0,
        });
        Ok(kind)
    }
}
