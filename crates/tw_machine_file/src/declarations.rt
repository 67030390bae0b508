//! What a machine declares: parameters, registers, queues, tables and observations.
ghost use Rattle.std.specs.Prelude.{◌≡◌, [], IfOk, codes, is_some, map, option_and_then};
ghost use Rattle.serde_json.specs.Find.{as_array, as_str, at, get};
ghost use Rattle.serde_json.specs.View.{view, items_view, members_view};
ghost use Rattle.tw_machine_text.specs.Text.{position};
ghost use Rattle.tw_machine_declaration.specs.Seen.{name, thing};
ghost use Rattle.tw_machine_file.specs.Answers.{Gives, FailsBy, data_of, names_in};
ghost use Rattle.tw_machine_file.specs.Declares.{declare, declare_all, declared_in, is_list, is_text, names_list, new_name, nothing_declared, few_observations, observation_named, observation_of, observations_in, observations_of, pair_by, pair_name, pair_of, procedure_named, procedures_in, procedures_named, parameter_named, parameter_of, parameters_in, parameters_of, parameters_said, part_of, queue_by, queue_part, register_by, scope_of, table_by, texts, thing_of, with_parameter};
ghost use Rattle.tw_machine_file.specs.Names.{is_among};
ghost use Rattle.tw_machine_file.specs.Constants.{numbers_in};
ghost use Rattle.tw_machine_file.specs.Seen.{scope};
ghost use Rattle.tw_machine_file.specs.Shared.{shared};

use crate::constants::{Numbers, constant, constants, count, wholes};
use crate::fault::{MachineFault, Part, Why};
use crate::hiding::{constants_left, shared_names};
use crate::names::{is_name, is_own_name, place_in};
use crate::shared::SharedNames;
use crate::values::{are_few, has_items, is_long, items_of};
use serde_json::{Map, Value};
use std::alloc::{AllocError, Global};
use tw_machine::limits::{MAX_CELLS, MAX_NUMBERS, MAX_OBSERVATIONS, MAX_QUEUES, MAX_ROOM};
use tw_machine_compiler::{Constant, Named, Thing, Timer};
use tw_machine_text::same_text;

/// What is declared so far: all names in order, and of these those that stand for numbers, the parameters that are lists,
/// and the timers.
#[derive(Drop)]
pub(crate) struct Scope {
    pub names: Vec<Named>,
    pub numbers: Numbers,
    pub lists: Vec<String>,
    /// Whether the machine has the member `timers`.
    pub timed: bool,
    pub timers: Vec<Timer>,
}

/// A member of a machine whose members are names.
#[derive(Clone, Copy, Debug, PartialEq, Eq)]
pub(crate) enum Section {
    Registers,
    Queues,
    Tables,
}

impl Section {
    fn part(self) -> Part
        ensures { result ≡ part_of self }
    {
        match self {
            Section::Registers => Part::Registers,
            Section::Queues => Part::Queues,
            Section::Tables => Part::Tables,
        }
    }
}

fn register(alloc: Global, numbers: &Numbers, value: &Value) -> Result<Thing, MachineFault>
    ensures ok { Gives result thing (register_by (numbers_in numbers.now) (view value.now)
        (as_array (view value.now))) }
    ensures err { FailsBy result (register_by (numbers_in numbers.now) (view value.now)
        (as_array (view value.now))) }
{
    let Some(starts) = items_of(value) else {
        return Ok(Thing::Register(constant(Part::Registers, numbers, value)?));
    };
    if !is_long(MAX_CELLS, starts) {
        return Err(MachineFault::Wrong(Part::Registers, Why::Count));
    }
    Ok(Thing::RegisterArray(constants(alloc, Part::Registers, numbers, starts)?))
}

/// A count in the array of a queue.
fn queue_part(
    most: u64,
    numbers: &Numbers,
    value: &Value,
    index: usize,
) -> Result<Constant, MachineFault>
    ensures ok { Gives result
        (λ c. c) (queue_part most (numbers_in numbers.now) (at index (view value.now))) }
    ensures err { FailsBy result (queue_part most (numbers_in numbers.now)
        (at index (view value.now))) }
{
    match value.get(index) {
        Some(part) => count(Part::Queues, most, numbers, part),
        None => Err(MachineFault::Wrong(Part::Queues, Why::Shape)),
    }
}

fn queue(numbers: &Numbers, value: &Value) -> Result<Thing, MachineFault>
    ensures ok { Gives result thing (queue_by (numbers_in numbers.now) (view value.now)
        (as_array (view value.now))) }
    ensures err { FailsBy result (queue_by (numbers_in numbers.now) (view value.now)
        (as_array (view value.now))) }
{
    let Some(parts) = items_of(value) else {
        return Ok(Thing::Queue(count(Part::Queues, MAX_ROOM as u64, numbers, value)?));
    };
    if !has_items(2, parts) {
        return Err(MachineFault::Wrong(Part::Queues, Why::Shape));
    }
    let many = queue_part(MAX_QUEUES as u64, numbers, value, 0)?;
    let room = queue_part(MAX_ROOM as u64, numbers, value, 1)?;
    Ok(Thing::QueueArray(many, room))
}

/// The place of a parameter among the lists, if the value is its name.
fn list_named(lists: &[String], value: &Value) -> Option<usize>
    ensures { result ≡ option_and_then (position 0 (names_in lists.now)) (as_str (view value.now)) }
{
    place_in(lists, value.as_str()?.as_bytes())
}

fn table(alloc: Global, lists: &[String], value: &Value) -> Result<Thing, MachineFault>
    ensures ok { Gives result thing (table_by (names_in lists.now) (view value.now)
        (as_array (view value.now))) }
    ensures err { FailsBy result (table_by (names_in lists.now) (view value.now)
        (as_array (view value.now))) }
{
    let Some(numbers) = items_of(value) else {
        return match list_named(lists, value) {
            Some(place) => Ok(Thing::ListTable(place)),
            None => Err(MachineFault::Wrong(Part::Tables, Why::Constant)),
        };
    };
    if !is_long(MAX_NUMBERS, numbers) {
        return Err(MachineFault::Wrong(Part::Tables, Why::Count));
    }
    Ok(Thing::Table(wholes(alloc, Part::Tables, numbers)?))
}

/// What the value of a member declares.
fn thing_of(
    alloc: Global,
    section: Section,
    so_far: &Scope,
    value: &Value,
) -> Result<Thing, MachineFault>
    ensures ok { Gives result thing (thing_of section (scope so_far.now) (view value.now)) }
    ensures err { FailsBy result (thing_of section (scope so_far.now) (view value.now)) }
{
    match section {
        Section::Registers => register(alloc, &so_far.numbers, value),
        Section::Queues => queue(&so_far.numbers, value),
        Section::Tables => table(alloc, so_far.lists.as_slice(), value),
    }
}

/// Whether a name has come before.
fn is_declared(names: &[Named], text: &[u8]) -> bool
    ensures { result ≡ is_among (texts (map name names.now)) text.now }
{
    for named in names {
        if same_text(named.name.as_bytes(), text) {
            return true;
        }
    }
    false
}

/// Looks at a name: whether it may be one, as is said, and has not come before.
pub(crate) fn new_name(
    part: Part,
    may: bool,
    names: &[Named],
    text: &str,
) -> Result<(), MachineFault>
    ensures ok { Gives result (λ _. text.now) (new_name part may (map name names.now) text.now) }
    ensures err { FailsBy result (new_name part may (map name names.now) text.now) }
{
    if !may {
        return Err(MachineFault::Wrong(part, Why::Name));
    }
    if is_declared(names, text.as_bytes()) {
        return Err(MachineFault::Wrong(part, Why::Twice));
    }
    Ok(())
}

/// One name more.
fn declare(
    alloc: Global,
    section: Section,
    so_far: Scope,
    text: &str,
    value: &Value,
) -> Result<Scope, MachineFault>
    ensures ok { Gives result scope (declare section (scope so_far) text.now (view value.now)) }
    ensures err { FailsBy result (declare section (scope so_far) text.now (view value.now)) }
{
    let mut so_far = so_far;
    let may = is_name(so_far.timed, text.as_bytes());
    new_name(section.part(), may, so_far.names.as_slice(), text)?;
    let thing = thing_of(alloc, section, &so_far, value)?;
    let name = String::from_str(alloc, text)?;
    so_far.names.push(Named { name, thing })?;
    Ok(so_far)
}

/// The names of a member.
fn declare_all(
    alloc: Global,
    section: Section,
    so_far: Scope,
    members: &Map<String, Value>,
) -> Result<Scope, MachineFault>
    ensures ok { Gives result scope (declare_all section (scope so_far)
        (members_view members.now.entries)) }
    ensures err { FailsBy result (declare_all section (scope so_far)
        (members_view members.now.entries)) }
{
    let mut all = so_far;
    for (name, value) in members.iter() {
        all = declare(alloc, section, all, name.as_str(), value)?;
    }
    Ok(all)
}

fn declared_in(
    alloc: Global,
    section: Section,
    so_far: Scope,
    member: Option<&Value>,
) -> Result<Scope, MachineFault>
    ensures ok { Gives result scope (declared_in section (scope so_far) (data_of member.entry)) }
    ensures err { FailsBy result (declared_in section (scope so_far) (data_of member.entry)) }
{
    let Some(value) = member else {
        return Ok(so_far);
    };
    let Some(members) = value.as_object() else {
        return Err(MachineFault::Wrong(section.part(), Why::Shape));
    };
    declare_all(alloc, section, so_far, members)
}

fn is_text(text: &[u8], value: &Value) -> bool
    ensures { result ≡ is_text text.now (view value.now) }
{
    match value.as_str() {
        Some(other) => same_text(other.as_bytes(), text),
        None => false,
    }
}

fn names_list(text: &[u8], tables: &Map<String, Value>) -> bool
    ensures { result ≡ names_list text.now (members_view tables.now.entries) }
{
    for (_, value) in tables.iter() {
        if is_text(text, value) {
            return true;
        }
    }
    false
}

/// Whether a table is named after a parameter.
fn is_list(tables: Option<&Value>, text: &[u8]) -> bool
    ensures { result ≡ is_list (data_of tables.entry) text.now }
{
    let Some(tables) = tables else {
        return false;
    };
    match tables.as_object() {
        Some(tables) => names_list(text, tables),
        None => false,
    }
}

/// One parameter more.
fn with_parameter(
    alloc: Global,
    is_list: bool,
    so_far: Scope,
    text: &str,
) -> Result<Scope, AllocError>
    ensures { IfOk result (λ s. with_parameter is_list (scope so_far) text.now ≡ scope s) }
{
    let mut so_far = so_far;
    let name = String::from_str(alloc, text)?;
    let again = String::from_str(alloc, text)?;
    if is_list {
        let thing = Thing::ListParameter(so_far.lists.len());
        so_far.lists.push(again)?;
        so_far.names.push(Named { name, thing })?;
    } else {
        let thing = Thing::Parameter(so_far.numbers.parameters.len());
        so_far.numbers.parameters.push(again)?;
        so_far.names.push(Named { name, thing })?;
    }
    Ok(so_far)
}

fn parameter_named(
    alloc: Global,
    tables: Option<&Value>,
    so_far: Scope,
    text: &str,
) -> Result<Scope, MachineFault>
    ensures ok { Gives result scope (parameter_named (data_of tables.entry)
        (scope so_far) text.now) }
    ensures err { FailsBy result (parameter_named (data_of tables.entry) (scope so_far) text.now) }
{
    let may = is_own_name(so_far.timed, text.as_bytes());
    new_name(Part::Parameters, may, so_far.names.as_slice(), text)?;
    let is_list = is_list(tables, text.as_bytes());
    Ok(with_parameter(alloc, is_list, so_far, text)?)
}

fn parameter_of(
    alloc: Global,
    tables: Option<&Value>,
    so_far: Scope,
    value: &Value,
) -> Result<Scope, MachineFault>
    ensures ok { Gives result scope (parameter_of (data_of tables.entry) (scope so_far)
        (view value.now)) }
    ensures err { FailsBy result (parameter_of (data_of tables.entry) (scope so_far)
        (view value.now)) }
{
    match value.as_str() {
        Some(text) => parameter_named(alloc, tables, so_far, text),
        None => Err(MachineFault::Wrong(Part::Parameters, Why::Shape)),
    }
}

fn parameters_of(
    alloc: Global,
    tables: Option<&Value>,
    so_far: Scope,
    values: &[Value],
) -> Result<Scope, MachineFault>
    ensures ok { Gives result scope (parameters_of (data_of tables.entry) (scope so_far)
        (items_view values.now)) }
    ensures err { FailsBy result (parameters_of (data_of tables.entry) (scope so_far)
        (items_view values.now)) }
{
    let mut all = so_far;
    for value in values {
        all = parameter_of(alloc, tables, all, value)?;
    }
    Ok(all)
}

fn parameters_in(
    alloc: Global,
    tables: Option<&Value>,
    so_far: Scope,
    member: Option<&Value>,
) -> Result<Scope, MachineFault>
    ensures ok { Gives result scope (parameters_in (scope so_far) (data_of tables.entry)
        (data_of member.entry)) }
    ensures err { FailsBy result (parameters_in (scope so_far) (data_of tables.entry)
        (data_of member.entry)) }
{
    let Some(value) = member else {
        return Ok(so_far);
    };
    let Some(values) = items_of(value) else {
        return Err(MachineFault::Wrong(Part::Parameters, Why::Shape));
    };
    parameters_of(alloc, tables, so_far, values)
}

/// One observation more.
fn observation_named(alloc: Global, so_far: Scope, text: &str) -> Result<Scope, MachineFault>
    ensures ok { Gives result scope (observation_named (scope so_far) text.now) }
    ensures err { FailsBy result (observation_named (scope so_far) text.now) }
{
    let mut so_far = so_far;
    let may = is_name(so_far.timed, text.as_bytes());
    new_name(Part::Observations, may, so_far.names.as_slice(), text)?;
    let name = String::from_str(alloc, text)?;
    so_far.names.push(Named {
        name,
        thing: Thing::Observation,
    })?;
    Ok(so_far)
}

fn observation_of(alloc: Global, so_far: Scope, value: &Value) -> Result<Scope, MachineFault>
    ensures ok { Gives result scope (observation_of (scope so_far) (view value.now)) }
    ensures err { FailsBy result (observation_of (scope so_far) (view value.now)) }
{
    match value.as_str() {
        Some(text) => observation_named(alloc, so_far, text),
        None => Err(MachineFault::Wrong(Part::Observations, Why::Shape)),
    }
}

fn observations_of(alloc: Global, so_far: Scope, values: &[Value]) -> Result<Scope, MachineFault>
    ensures ok { Gives result scope (observations_of (scope so_far) (items_view values.now)) }
    ensures err { FailsBy result (observations_of (scope so_far) (items_view values.now)) }
{
    let mut all = so_far;
    for value in values {
        all = observation_of(alloc, all, value)?;
    }
    Ok(all)
}

/// An array of at most 16.
fn few_observations(value: &Value) -> Result<&[Value], MachineFault>
    ensures ok { Gives result (λ vs. items_view vs.now) (few_observations (view value.now)) }
    ensures err { FailsBy result (few_observations (view value.now)) }
{
    let Some(values) = items_of(value) else {
        return Err(MachineFault::Wrong(Part::Observations, Why::Shape));
    };
    if !are_few(MAX_OBSERVATIONS, values) {
        return Err(MachineFault::Wrong(Part::Observations, Why::Count));
    }
    Ok(values)
}

fn observations_in(
    alloc: Global,
    so_far: Scope,
    member: Option<&Value>,
) -> Result<Scope, MachineFault>
    ensures ok { Gives result scope (observations_in (scope so_far) (data_of member.entry)) }
    ensures err { FailsBy result (observations_in (scope so_far) (data_of member.entry)) }
{
    let Some(value) = member else {
        return Ok(so_far);
    };
    let values = few_observations(value)?;
    observations_of(alloc, so_far, values)
}

fn pair_name(value: &Value) -> Result<&str, MachineFault>
    ensures ok { Gives result (λ t. t.now) (pair_name (view value.now)) }
    ensures err { FailsBy result (pair_name (view value.now)) }
{
    let Some(name) = value.get(0) else {
        return Err(MachineFault::Wrong(Part::Procedures, Why::Shape));
    };
    match name.as_str() {
        Some(text) => Ok(text),
        None => Err(MachineFault::Wrong(Part::Procedures, Why::Shape)),
    }
}

/// The name of a procedure, of an array of a name and a program.
fn pair_of(value: &Value) -> Result<&str, MachineFault>
    ensures ok { Gives result (λ t. t.now) (pair_of (view value.now)) }
    ensures err { FailsBy result (pair_of (view value.now)) }
{
    match items_of(value) {
        Some(values) if has_items(2, values) => pair_name(value),
        _ => Err(MachineFault::Wrong(Part::Procedures, Why::Shape)),
    }
}

/// One procedure more, behind so many.
fn procedure_named(
    alloc: Global,
    place: usize,
    so_far: Scope,
    text: &str,
) -> Result<Scope, MachineFault>
    ensures ok { Gives result scope (procedure_named place (scope so_far) text.now) }
    ensures err { FailsBy result (procedure_named place (scope so_far) text.now) }
{
    let mut so_far = so_far;
    let may = is_name(so_far.timed, text.as_bytes());
    new_name(Part::Procedures, may, so_far.names.as_slice(), text)?;
    let name = String::from_str(alloc, text)?;
    so_far.names.push(Named {
        name,
        thing: Thing::Procedure(place),
    })?;
    Ok(so_far)
}

fn procedures_named(alloc: Global, so_far: Scope, values: &[Value]) -> Result<Scope, MachineFault>
    ensures ok { Gives result scope (procedures_named 0 (scope so_far) (items_view values.now)) }
    ensures err { FailsBy result (procedures_named 0 (scope so_far) (items_view values.now)) }
{
    let mut all = so_far;
    for (place, value) in values.iter().enumerate() {
        let name = pair_of(value)?;
        all = procedure_named(alloc, place, all, name)?;
    }
    Ok(all)
}

/// The names in the member `procedures`.
pub(crate) fn procedures_in(
    alloc: Global,
    so_far: Scope,
    member: Option<&Value>,
) -> Result<Scope, MachineFault>
    ensures ok { Gives result scope (procedures_in (scope so_far) (data_of member.entry)) }
    ensures err { FailsBy result (procedures_in (scope so_far) (data_of member.entry)) }
{
    let Some(value) = member else {
        return Ok(so_far);
    };
    match items_of(value) {
        Some(values) => procedures_named(alloc, so_far, values),
        None => Err(MachineFault::Wrong(Part::Procedures, Why::Shape)),
    }
}

/// Whether a machine has the member `timers`.
fn has_timers(value: &Value) -> bool
    ensures { result ≡ is_some (get (codes "timers") (view value.now)) }
{
    value.get("timers").is_some()
}

/// What a machine has before it declares anything: what its file says for it.
fn nothing_declared(alloc: Global, said: &SharedNames, value: &Value) -> Result<Scope, AllocError>
    ensures { IfOk result (λ s. scope s ≡ nothing_declared (shared said.now) (view value.now)) }
{
    let constants = constants_left(alloc, value, &said.constants)?;
    let names = shared_names(alloc, value, &constants, &said.fields)?;
    Ok(Scope {
        names,
        numbers: Numbers {
            parameters: Vec::new(alloc),
            constants,
        },
        lists: Vec::new(alloc),
        timed: has_timers(value),
        timers: Vec::new(alloc),
    })
}

/// Behind the names that its file gives it the parameters of a machine.
fn parameters_said(alloc: Global, said: &SharedNames, value: &Value) -> Result<Scope, MachineFault>
    ensures ok { Gives result scope (parameters_said (shared said.now) (view value.now)) }
    ensures err { FailsBy result (parameters_said (shared said.now) (view value.now)) }
{
    let nothing = nothing_declared(alloc, said, value)?;
    parameters_in(alloc, value.get("tables"), nothing, value.get("parameters"))
}

/// All names of a machine but those of its procedures and timers, in this order: those that its file gives it, its
/// parameters, registers, queues, tables and observations.
pub(crate) fn scope_of(
    alloc: Global,
    said: &SharedNames,
    value: &Value,
) -> Result<Scope, MachineFault>
    ensures ok { Gives result scope (scope_of (shared said.now) (view value.now)) }
    ensures err { FailsBy result (scope_of (shared said.now) (view value.now)) }
{
    let tables = value.get("tables");
    let all = parameters_said(alloc, said, value)?;
    let all = declared_in(alloc, Section::Registers, all, value.get("registers"))?;
    let all = declared_in(alloc, Section::Queues, all, value.get("queues"))?;
    let all = declared_in(alloc, Section::Tables, all, tables)?;
    observations_in(alloc, all, value.get("observations"))
}
