//! The limits of timers and of what is sent at any time. Those of a machine are those of tw_machine.

/// The most timers, of which one with a count counts each.
pub const MAX_TIMERS: usize = 64;

/// The most entries of the member `timers`.
pub const MAX_TIMER_NAMES: usize = 16;

/// How many items are kept to be sent: each of the two hidden queues has this room.
pub const OUTBOX: usize = 64;
