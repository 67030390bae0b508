//! The limits of a machine, and of the machines of a file. Counting ends one past a limit, where a constant says so. The
//! limits of a text are those of tw_machine_text.

/// The most cells of the registers that a machine declares.
pub const MAX_CELLS: usize = 64;

/// The most cells of a program, those too that its user does not see; and where counting them ends.
pub const MAX_PROGRAM_CELLS: usize = 256;

pub const CELLS_END: usize = MAX_PROGRAM_CELLS + 1;

/// The most observations that a machine declares, and the cells of each: how many, their sum, the sum of their squares.
pub const MAX_OBSERVATIONS: usize = 16;

pub const OBSERVATION_CELLS: usize = 3;

/// The most queues, of which an array counts each, and where counting them ends.
pub const MAX_QUEUES: usize = 16;

pub const QUEUES_END: usize = MAX_QUEUES + 1;

/// The largest room of one queue.
pub const MAX_ROOM: usize = 1024;

/// The largest room of all queues together.
pub const MAX_ROOMS: usize = 4096;

/// The most numbers of one table, and of all tables of a machine together; and where counting them ends.
pub const MAX_NUMBERS: usize = 65_536;

pub const NUMBERS_END: usize = MAX_NUMBERS + 1;

/// The most outputs that a machine declares.
pub const MAX_OUTPUTS: usize = 64;

/// The most entries of its words.
pub const MAX_WORDS: usize = 64;

/// The most computations of a run: of a program, of all outputs, or of all words; and where counting them ends.
pub const MAX_COMPUTATIONS: usize = 262_144;

pub const COMPUTATIONS_END: usize = MAX_COMPUTATIONS + 1;

/// The most numbers that a run of a program keeps to be taken back, and where counting them ends.
pub const MAX_LOGGED: usize = 1_048_575;

pub const LOGGED_END: usize = MAX_LOGGED + 1;

/// The most machines that a file declares.
pub const MAX_MACHINES: usize = 256;

/// The most numbers of all tables of a file together, and where counting them ends.
pub const MAX_FILE_NUMBERS: usize = 1_048_576;

pub const FILE_NUMBERS_END: usize = MAX_FILE_NUMBERS + 1;
