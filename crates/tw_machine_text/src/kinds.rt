//! What names stand for.
ghost use Rattle.std.specs.Prelude.{◌≡◌, IfOk, map};
ghost use Rattle.tw_machine_text.specs.Kinds.{
  stands_for,
  reads,
  indexes,
  is_register,
  is_register_array,
  is_queue,
  is_queue_array,
  is_observation,
  is_table,
  counts_turns,
  is_procedure,
  is_timer,
  is_timer_array,
  is_among,
  field_of,
  meaning_named,
  no_meaning,
  without_field,
  kinds_of,
};
ghost use Rattle.tw_machine_text.specs.TextViews.{declarations};

use crate::dictionary::{FUNCTIONS, same_text};
use crate::limits::MAX_TURNS;
use std::alloc::{AllocError, Global};

/// What a machine declares by a name.
#[derive(Clone, Copy, Debug, PartialEq, Eq)]
pub enum Kind {
    /// A function's name that nothing else has.
    Nothing,
    Register,
    /// An array register.
    RegisterArray,
    Queue,
    /// An array of queues.
    QueueArray,
    Table,
    /// A parameter that is a number.
    Parameter,
    /// This number, which the file says once.
    Constant(i64),
    /// A parameter that is a list.
    ListParameter,
    Observation,
    /// A procedure, at this place among them.
    Procedure(usize),
    /// A timer. This name, hidden behind the machine's own, stands for how many timers are before it.
    Timer(usize),
    /// A timer with a count: as many alike. The first name stands for how many timers are before it, the second for the
    /// greatest index.
    TimerArray(usize, usize),
}

/// The names that a machine with timers has behind its own, by their numbers, and the timer that a text is of. No text
/// names them.
#[derive(Clone, Copy, Debug, PartialEq, Eq)]
pub struct Timing {
    /// The array register of the ticks at which timers are due; -1 is of one that does not run.
    pub due: usize,
    /// The register of the timer that goes next, by its place among all.
    pub next: usize,
    /// The least number of ticks for which a timer runs.
    pub least: usize,
    /// The queues of the ports and of the values of what is to be sent.
    pub ports: usize,
    pub values: usize,
    /// Where the text is of a timer with a count: the name of how many are before that.
    pub of: Option<usize>,
}

/// A part of a value: so many bits from a lowest one on.
#[derive(Clone, Copy, Debug, PartialEq, Eq)]
pub struct Field {
    /// What its lowest bit counts in the value.
    pub unit: u64,
    /// How many numbers it tells apart.
    pub size: u64,
}

/// What a name stands for: what the machine declares by it, and the field that it names before a parenthesis.
#[derive(Clone, Copy, Debug, PartialEq, Eq)]
pub struct Meaning {
    pub kind: Kind,
    pub field: Option<Field>,
}

/// A name that a machine declares, or a field's, and what it stands for.
#[derive(Drop)]
pub struct Declared {
    pub name: String,
    pub meaning: Meaning,
}

/// The names that a text may use.
#[derive(Clone, Copy)]
pub(crate) struct Names<'a> {
    pub declared: &'a [Declared],
    /// What each stands for, by its number: the functions' names first.
    pub kinds: &'a [Meaning],
    /// Of a machine with timers the names behind these, and the timer that the text is of.
    pub timing: Option<Timing>,
}

/// What the text of a member is.
#[derive(Clone, Copy, Debug, PartialEq, Eq)]
pub enum Member {
    /// An expression.
    Value,
    /// A queue.
    Each,
    /// An expression, a queue, one of an array by its number, an array register, or an observation.
    Shown,
}

/// What a name that nothing has stands for.
const NO_MEANING: Meaning = Meaning {
    kind: Kind::Nothing,
    field: None,
};

/// What is declared by a name.
fn meaning_named(declared: &[Declared], name: &[u8]) -> Meaning
    ensures { result ≡ meaning_named (declarations declared.now) name.now }
{
    for one in declared {
        if same_text(one.name.as_bytes(), name) {
            return one.meaning;
        }
    }
    NO_MEANING
}

/// What a function's name stands for, which is no field's.
fn without_field(meaning: Meaning) -> Meaning
    ensures { result ≡ without_field meaning }
{
    Meaning {
        kind: meaning.kind,
        field: None,
    }
}

/// What is declared by each of these names.
fn kinds_named(
    alloc: Global,
    declared: &[Declared],
    names: &[&str],
) -> Result<Vec<Meaning>, AllocError>
    ensures { IfOk result (λ kinds. kinds.items
        ≡ map (λ name. without_field (meaning_named (declarations declared.now) name.now)) names.now) }
{
    let mut kinds = Vec::with_capacity(alloc, names.len())?;
    for name in names {
        kinds.push(without_field(meaning_named(declared, name.as_bytes())))?;
    }
    Ok(kinds)
}

/// What is declared, without the names.
fn kinds_declared(alloc: Global, declared: &[Declared]) -> Result<Vec<Meaning>, AllocError>
    ensures { IfOk result (λ kinds. kinds.items ≡ map (λ d. d.1) (declarations declared.now)) }
{
    let mut kinds = Vec::with_capacity(alloc, declared.len())?;
    for one in declared {
        kinds.push(one.meaning)?;
    }
    Ok(kinds)
}

/// What each name stands for, by its number: first the functions' names, then those that are declared. The only error
/// is want of memory.
pub fn kinds_of(alloc: Global, declared: &[Declared]) -> Result<Vec<Meaning>, AllocError>
    ensures { IfOk result (λ kinds. kinds.items ≡ kinds_of (declarations declared.now)) }
{
    let mut kinds = kinds_named(alloc, declared, &FUNCTIONS)?;
    let others = kinds_declared(alloc, declared)?;
    kinds.extend_from_slice(&others)?;
    Ok(kinds)
}

/// What is declared by the name of this number.
pub(crate) fn stands_for(kinds: &[Meaning], name: usize) -> Kind
    ensures { result ≡ stands_for kinds.now name }
{
    kinds.get(name).copied().unwrap_or(NO_MEANING).kind
}

/// The field that the name of this number names before a parenthesis.
pub(crate) fn field_of(kinds: &[Meaning], name: usize) -> Option<Field>
    ensures { result ≡ field_of kinds.now name }
{
    kinds.get(name).copied().unwrap_or(NO_MEANING).field
}

impl Kind {
    /// Whether it is a number as it stands.
    pub fn reads(self) -> bool
        ensures { result ≡ reads self }
    {
        matches!(self, Kind::Register | Kind::Parameter | Kind::Constant(_))
    }

    /// Whether it is a number with an index.
    pub fn indexes(self) -> bool
        ensures { result ≡ indexes self }
    {
        matches!(self, Kind::RegisterArray | Kind::Table)
    }

    pub fn is_register(self) -> bool
        ensures { result ≡ is_register self }
    {
        matches!(self, Kind::Register)
    }

    pub fn is_register_array(self) -> bool
        ensures { result ≡ is_register_array self }
    {
        matches!(self, Kind::RegisterArray)
    }

    pub fn is_queue(self) -> bool
        ensures { result ≡ is_queue self }
    {
        matches!(self, Kind::Queue)
    }

    pub fn is_queue_array(self) -> bool
        ensures { result ≡ is_queue_array self }
    {
        matches!(self, Kind::QueueArray)
    }

    pub fn is_observation(self) -> bool
        ensures { result ≡ is_observation self }
    {
        matches!(self, Kind::Observation)
    }

    pub fn is_table(self) -> bool
        ensures { result ≡ is_table self }
    {
        matches!(self, Kind::Table)
    }

    pub fn is_procedure(self) -> bool
        ensures { result ≡ is_procedure self }
    {
        matches!(self, Kind::Procedure(_))
    }

    /// Whether it is one timer.
    pub fn is_timer(self) -> bool
        ensures { result ≡ is_timer self }
    {
        matches!(self, Kind::Timer(_))
    }

    /// Whether it is so many timers that are alike.
    pub fn is_timer_array(self) -> bool
        ensures { result ≡ is_timer_array self }
    {
        matches!(self, Kind::TimerArray(..))
    }

    /// Whether it is one of the first so many procedures.
    pub fn is_among(self, known: usize) -> bool
        ensures { result ≡ is_among known self }
    {
        match self {
            Kind::Procedure(place) => place < known,
            _ => false,
        }
    }

    /// Whether it may say how often something is repeated: a parameter, or a number of 0 to 64.
    pub fn counts_turns(self) -> bool
        ensures { result ≡ counts_turns self }
    {
        match self {
            Kind::Parameter => true,
            Kind::Constant(number) => number >= 0 && number <= MAX_TURNS as i64,
            _ => false,
        }
    }
}
