//! What is read of an executive; of a component that it does not have, nothing.

use std::alloc::{AllocError, Global};
use tw_atomic::Atomic;
use tw_exec::Executive;
use tw_msgs::Item;
use tw_vtime::Stamp;

/// Where a component stands: at the stamp of its last step that is not undone, committed or not.
pub(crate) fn place<M: Atomic>(executive: &Executive<M>, component: usize) -> Option<Stamp> {
    if component >= executive.network().len() {
        return None;
    }
    if let Some(stamp) = executive.contents(component).last_stamp() {
        return Some(stamp);
    }
    let record = executive.committed(component).last()?;
    Some(record.stamp)
}

/// How many steps a component has that are not committed.
pub(crate) fn history_len<M: Atomic>(executive: &Executive<M>, component: usize) -> usize {
    if component >= executive.network().len() {
        return 0;
    }
    executive.contents(component).history_len()
}

/// The commit line of a component.
pub(crate) fn line<M: Atomic>(executive: &Executive<M>, component: usize) -> Stamp {
    if component >= executive.network().len() {
        return Stamp::START;
    }
    executive.line(component)
}

/// The outgoing items of a component.
pub(crate) fn outgoing<M: Atomic>(
    alloc: Global,
    executive: &Executive<M>,
    component: usize,
) -> Result<Vec<Item>, AllocError> {
    if component >= executive.network().len() {
        return Ok(Vec::new(alloc));
    }
    executive.contents(component).lists().outgoing()
}

/// How many items of a component are outgoing.
pub(crate) fn outgoing_len<M: Atomic>(executive: &Executive<M>, component: usize) -> usize {
    if component >= executive.network().len() {
        return 0;
    }
    executive.contents(component).lists().outgoing_len()
}

/// The items of a component's mailbox.
pub(crate) fn mail<M: Atomic>(executive: &Executive<M>, component: usize) -> &[Item] {
    if component >= executive.network().len() {
        return &[];
    }
    executive.mail(component)
}
