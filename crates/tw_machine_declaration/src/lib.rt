//! What a machine declares, what its names stand for, and what its trees cost.
//!
//! - `declaration`: [`Declaration`], what a machine declares, its texts read into trees; [`Given`], what a component gives
//!   for its machine's parameters.
//! - `names`: [`Standing`] and [`standings_of`], what each name stands for: cells, queues and numbers of tables, one after
//!   another; [`constant`], [`start_of`], [`room_of`], [`count_of`], [`list_given`], numbers and lists once they are given.
//! - `starts`: [`due_ticks`], [`earliest`] and [`next_timer`], when timers are due at the start; [`timer_count`], [`all_timers`].
//! - `timer_names`: [`TimerNames`], the numbers of the names that timers have behind a machine's own. `hidden`:
//!   [`hide_timers`], what these are the names of.
//! - `timed`: [`internal`], [`ended`] and [`timed_outputs`], what a machine with timers does and sends in the core of the
//!   language. `pushing`: [`pushes`], whether something is sent at any time.
//! - `limits`: [`MAX_TIMERS`], [`MAX_TIMER_NAMES`], [`OUTBOX`].
//! - `functions`: [`function_of`], the function of a number.
//! - `nodes`: [`all_nodes`], how many nodes a machine has.
//! - `turns`: [`written_turns`], how often a block is repeated.
//! - `work`: [`block_work`], how many computations a run of a program makes at the most; [`queue_room`], the room of a queue.
//! - `computing`: [`outputs_work`] and [`words_work`], the same of what is sent and of the words.
//!
//! A tree leans to the left, as deep as it has nodes: the walks over it call themselves up to 4,096 deep. How deep
//! blocks and parentheses stand in one another is held by the texts' reader.
#![tactic(auto)]

mod computing;
mod declaration;
mod functions;
mod hidden;
mod limits;
mod names;
mod nodes;
mod pushing;
mod starts;
mod timed;
mod timer_names;
mod turns;
mod work;

pub use computing::{outputs_work, words_work};
pub use declaration::{
    Constant, Declaration, Given, Named, OutputText, Thing, Timer, TimerOutput, Timers, Value,
};
pub use functions::{Function, Joining, function_of};
pub use hidden::hide_timers;
pub use limits::{MAX_TIMER_NAMES, MAX_TIMERS, OUTBOX};
pub use names::{
    Standing, constant, count_of, list_given, observation_span, room_of, standing_at, standings_of,
    start_of,
};
pub use nodes::all_nodes;
pub use pushing::pushes;
pub use starts::{all_timers, due_ticks, earliest, next_timer, timer_count};
pub use timed::{ended, internal, timed_outputs};
pub use timer_names::TimerNames;
pub use turns::written_turns;
pub use work::{block_work, queue_room};
