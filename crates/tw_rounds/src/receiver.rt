//! What takes the parts of a run.

ghost use Rattle.std.specs.Prelude.{◌≡◌, ◌++◌, ◌∷◌, [], OnOk};
ghost use Rattle.tw_rounds.specs.Receiving.{record_of};

use std::alloc::AllocError;
use tw_msgs::{Bag, Record, RecordKind, Words};
use tw_vtime::Stamp;

/// What takes the parts of a run, one after another, as records would have them: the component, the stamp, what it
/// did, the items of its output or input, and the words of its state after a transition. They are lent, so that a
/// receiver that writes them at once needs no record.
///
/// Its ghost member says what taking one record does to it.
pub trait Receiver {
    ghost use Rattle.tw_msgs.specs.declared.record.Record.{Record};

    ghost takes: { Self → Record → Self → Type 0 };

    /// Takes the next part. The only error is want of memory (4), and then the receiver is of no more use.
    fn take(
        &mut self,
        component: usize,
        stamp: Stamp,
        kind: RecordKind,
        bag: &Bag,
        words: &[i128],
    ) -> Result<(), AllocError>
        ensures { let taken = record_of component stamp kind bag.now words.now in
            OnOk result (takes self.old taken self.new) };
}

/// Keeps the parts as records, in their order.
impl Receiver for Vec<Record> {
    ghost takes = { λ old r new. new.items ≡ old.items ++ r ∷ [] };

    fn take(
        &mut self,
        component: usize,
        stamp: Stamp,
        kind: RecordKind,
        bag: &Bag,
        words: &[i128],
    ) -> Result<(), AllocError> {
        let words = Words::of(*self.allocator(), words)?;
        self.push(Record {
            component,
            stamp,
            kind,
            bag: bag.clone()?,
            words,
        })?;
        Ok(())
    }
}
