//! The round of a network at a time.

use tw_atomic::Atomic;
use tw_network::Network;
use tw_vtime::Stamp;

/// The round of a network at a time: the stamp of its outputs.
#[derive(Drop)]
pub(crate) struct Round<'a, M: Atomic> {
    /// The network whose components take part in it.
    pub(crate) network: &'a Network<M>,
    /// The stamp of its outputs. Its transitions have the next one.
    pub(crate) time: Stamp,
}
