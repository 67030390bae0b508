//! The limits of a text.

/// The most nodes of all texts of a machine together, and where counting them ends.
pub const MAX_NODES: usize = 4096;

pub const NODES_END: usize = MAX_NODES + 1;

/// How deep blocks, parentheses, brackets, `not` and signs may stand in one another.
pub const MAX_LEVELS: usize = 64;

/// Where counting them ends.
pub(crate) const LEVELS_END: usize = MAX_LEVELS + 1;

/// The most nodes and levels of a text as it is written, before it is in the core.
pub(crate) const WRITTEN_NODES: usize = 8192;

pub(crate) const WRITTEN_LEVELS: usize = 65;

/// How many timers may be alike.
pub const MAX_COUNT: u64 = 16;

/// In how many ticks a timer is due at most: one past the greatest tick.
pub(crate) const LAST_DUE: u64 = 1099511627775;

/// How often a block may be repeated.
pub const MAX_TURNS: u64 = 64;

/// The longest name, in bytes.
pub const MAX_NAME: usize = 32;
