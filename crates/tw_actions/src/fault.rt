//! What ends a run at a limit.

use tw_vtime::{Limit, Stamp};

/// The limit fault of a run: the least component that met a limit, in the first round in which one did.
#[derive(Clone, Copy, Debug, PartialEq, Eq)]
pub struct Fault {
    /// The component's number.
    pub component: usize,
    /// The stamp of that round's transitions.
    pub stamp: Stamp,
    /// Which limit the component's next step would pass.
    pub limit: Limit,
}
