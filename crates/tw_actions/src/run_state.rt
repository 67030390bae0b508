//! How a run stands.

use crate::fault::Fault;

/// How a run stands.
#[derive(Clone, Copy, Debug, PartialEq, Eq)]
pub enum RunState {
    /// Every commit line is at the end tick or after it: all is committed.
    Complete,
    /// It has met a limit: nothing is in transit, the fault's stamp is global virtual time, and its component is the
    /// least whose next step is there and meets a limit.
    Fault(Fault),
    /// Neither.
    Going,
}
