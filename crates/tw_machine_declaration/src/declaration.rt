//! A machine as it is declared.

use tw_machine_text::{Block, SourceExpr};

/// A constant.
#[derive(Clone, Copy, Debug, PartialEq, Eq)]
pub enum Constant {
    Number(i64),
    /// What a component gives for the parameter at this place among those that are numbers.
    Parameter(usize),
}

/// What a machine declares by a name.
#[derive(Drop)]
pub enum Thing {
    /// A parameter that is a number, at this place among those.
    Parameter(usize),
    /// A parameter that is a list, at this place among those.
    ListParameter(usize),
    /// A register, and what it has at the start.
    Register(Constant),
    /// An array register, and what its cells have at the start.
    RegisterArray(Vec<Constant>),
    /// A queue, and its room.
    Queue(Constant),
    /// An array of queues: how many, and the room of each.
    QueueArray(Constant, Constant),
    /// A table of these numbers.
    Table(Vec<i64>),
    /// A table of the numbers of a list, at this place among the parameters that are lists.
    ListTable(usize),
    /// An observation: three cells that its user does not see, 0 at the start.
    Observation,
    /// A procedure, at this place among them. Its program stands where it is used.
    Procedure(usize),
    /// A timer. The name of this number, hidden behind the machine's own, stands for how many timers are before it.
    Timer(usize),
    /// A timer with a count: as many alike. The first name stands for how many timers are before it, the second for the
    /// greatest index.
    TimerArray(usize, usize),
    /// Of the file: this number.
    Constant(i64),
    /// Of the file: the name of a field, by which the machine declares nothing.
    Field,
    /// Hidden: a number that no component gives.
    Number(Constant),
    /// Hidden: how many timers these are together.
    Together(Vec<Timer>),
    /// Hidden: the greatest index of a timer, 0 of one without a count.
    Greatest(Timer),
    /// Hidden: a cell for each timer, with the tick at which it is due; -1 where it does not run.
    Due(Timers),
    /// Hidden: a cell with the place of the timer that goes next; -1 where none runs.
    Next(Timers),
}

/// A timer, or so many that are alike.
#[derive(Clone, Copy, Debug, PartialEq, Eq)]
pub struct Timer {
    /// How many, 1 to 16; it is one timer, without an index, where it is left out.
    pub count: Option<Constant>,
    /// In how many ticks from the start on it is due. Where it is left out or negative it does not run then.
    pub first: Option<Constant>,
}

/// The timers of a machine, in order.
#[derive(Drop)]
pub struct Timers {
    pub each: Vec<Timer>,
    /// The least number of ticks for which one runs; 0 where it is left out.
    pub least: Option<Constant>,
}

/// A name that a machine declares, and what is declared by it.
#[derive(Drop)]
pub struct Named {
    pub name: String,
    pub thing: Thing,
}

/// An expression in a member: a whole number, or the tree of a text.
#[derive(Drop)]
pub enum Value {
    Number(i64),
    Text(SourceExpr),
}

/// An entry of what is sent.
#[derive(Drop)]
pub struct OutputText {
    pub port: Value,
    pub value: Value,
    pub when: Option<Value>,
    /// A queue.
    pub each: Option<SourceExpr>,
}

/// An output of a timer.
#[derive(Drop)]
pub struct TimerOutput {
    /// The place of the timer among the entries of `timers`.
    pub timer: usize,
    /// Whether this has a count.
    pub counted: bool,
    pub output: OutputText,
}

/// A machine. The numbers of names in its trees are those of the texts' reader: 0 to 16 for the functions' names, and
/// from 17 on for `names`, in this order.
#[derive(Drop)]
pub struct Declaration {
    pub names: Vec<Named>,
    /// From it, modulo 2^64, the random number at the start is mixed.
    pub random: Constant,
    /// The first wait; passive where it is left out or negative.
    pub first: Option<Constant>,
    /// The greatest wait.
    pub longest: Option<Constant>,
    /// Its timers. The first wait of a machine that has them is that of the first that is due, and `first` and `longest` are
    /// left out; their hidden names stand behind all others, and their programs and outputs in the members below.
    pub timers: Option<Timers>,
    pub internal: Block,
    pub external: Block,
    pub outputs: Vec<OutputText>,
    /// Expressions, queues, array registers and observations.
    pub words: Vec<Value>,
}

/// What a component gives for the parameters of its machine. Where it gives nothing, what hangs on a parameter counts
/// as none: so a machine is looked at that no component uses.
#[derive(Drop)]
pub struct Given {
    /// For each parameter that is a number.
    pub numbers: Vec<i64>,
    /// For each parameter that is a list.
    pub lists: Vec<Vec<i64>>,
}
