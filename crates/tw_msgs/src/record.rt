//! Records: what a component did, and when.

ghost use Rattle.std.specs.Prelude.{◌≡◌, ◌↔◌, true, IfOk};

use crate::bag::Bag;
use crate::record_kind::RecordKind;
use crate::words::Words;
use std::alloc::AllocError;
use tw_vtime::Stamp;

/// One step of a component, as a trace keeps it.
///
/// An output has its bag and no words. A transition has the bag of its input, which is empty where there
/// is none, and the words of the new state.
#[derive(Debug, PartialEq, Eq, Drop)]
pub struct Record {
    /// The component's number.
    pub component: usize,
    /// When: phase 0 for an output, phase 1 for a transition.
    pub stamp: Stamp,
    /// What the component did.
    pub kind: RecordKind,
    /// The items of an output, or of the input of a transition.
    pub bag: Bag,
    /// The words of the state after a transition.
    pub words: Words,
}

/// A copy: an equal record.
///
/// Where memory is wanting (refusal 4) there is no copy, and nothing is left behind.
impl Clone for Record {
    ghost is_clone = { λ r copy. copy ≡ r };

    fn clone(&self) -> Result<Record, AllocError>
        ensures { IfOk result (λ copy. copy ≡ self.now) }
    {
        Ok(Record {
            component: self.component,
            stamp: self.stamp,
            kind: self.kind,
            bag: self.bag.clone()?,
            words: self.words.clone()?,
        })
    }
}

/// What `==` of records means. It does nothing.
///
/// It holds exactly where the component, the stamp, the kind, the items in their order and the words in
/// theirs are equal.
pub fn equality_law()
    ensures { (r s : Record) → (⟦<Record as PartialEq>⟧.eq r s ≡ true) ↔ (r ≡ s) }
{}
