//! A machine of its JSON value.
ghost use Rattle.std.specs.Prelude.{◌≡◌, IfOk, codes, map, option_map};
ghost use Rattle.serde_json.specs.Find.{get};
ghost use Rattle.serde_json.specs.View.{view};
ghost use Rattle.tw_machine_declaration.specs.Seen as plain;
ghost use Rattle.tw_machine_file.specs.Answers.{Gives, FailsBy, data_of, names_in};
ghost use Rattle.tw_machine_file.specs.Constants.{numbers_in};
ghost use Rattle.tw_machine_file.specs.Machine.{
  all_names,
  first_in,
  head_of,
  longest_in,
  machine_made,
  machine_of,
  name_of,
  new_name,
  random_in,
  starts_of,
  texts_in,
  texts_of,
  timers_of,
};
ghost use Rattle.tw_machine_file.specs.Seen.{machine, scope, starts as seen_starts, texts as seen_texts};
ghost use Rattle.tw_machine_file.specs.Shared.{file_field, shared};
ghost use Rattle.tw_machine_file.specs.Texts.{language_of};

use crate::constants::{Numbers, constant, count};
use crate::declarations::{Scope, procedures_in, scope_of};
use crate::fault::{MachineFault, Part, Sender, Why};
use crate::names::{is_machine_name, is_named};
use crate::outputs::outputs_in;
use crate::procedures::procedures_said;
use crate::shared::{FileField, SharedNames};
use crate::texts::{Language, declared_of, program_in};
use crate::timed::timed_texts;
use crate::timers::{least_in, timers_in};
use crate::values::are_among;
use crate::words::words_in;
use serde_json::Value;
use std::alloc::{AllocError, Global};
use tw_machine_compiler::{Constant, Declaration, Named, OutputText, Timer, Timers, Value as Said};
use tw_machine_declaration::hide_timers;
use tw_machine_text::Block;
use tw_vtime::MAX_TICK;

/// A machine of a file.
#[derive(Drop)]
pub struct FileMachine {
    pub name: String,
    pub declaration: Declaration,
    /// The names of its parameters that are numbers, in order.
    pub numbers: Vec<String>,
    /// The names of its parameters that are lists, in order.
    pub lists: Vec<String>,
}

/// What a machine starts with, and its greatest wait.
#[derive(Clone, Copy, Debug, PartialEq, Eq)]
pub(crate) struct Starts {
    pub random: Constant,
    pub first: Option<Constant>,
    pub longest: Option<Constant>,
}

/// What a machine does, sends and shows.
#[derive(Drop)]
pub(crate) struct Texts {
    /// Whether it sends at any time.
    pub sends: bool,
    pub internal: Block,
    pub external: Block,
    pub outputs: Vec<OutputText>,
    pub words: Vec<Said>,
}

/// The members of a machine.
const MEMBERS: [&[u8]; 16] = [
    b"name",
    b"parameters",
    b"registers",
    b"queues",
    b"tables",
    b"observations",
    b"random",
    b"procedures",
    b"first",
    b"longest",
    b"timers",
    b"least",
    b"internal",
    b"external",
    b"output",
    b"words",
];

/// Looks at the name of a machine: whether it may be one, and has not come before.
fn new_name(before: &[String], name: &str) -> Result<(), MachineFault>
    ensures ok { Gives result (λ _. name.now) (new_name (names_in before.now) name.now) }
    ensures err { FailsBy result (new_name (names_in before.now) name.now) }
{
    if !is_machine_name(name.as_bytes()) {
        return Err(MachineFault::Wrong(Part::Name, Why::Name));
    }
    if is_named(before, name.as_bytes()) {
        return Err(MachineFault::Wrong(Part::Name, Why::Twice));
    }
    Ok(())
}

/// The name of a machine, which must be there.
fn name_of<'a>(before: &[String], member: Option<&'a Value>) -> Result<&'a str, MachineFault>
    ensures ok { Gives result (λ t. t.now) (name_of (names_in before.now) (data_of member.entry)) }
    ensures err { FailsBy result (name_of (names_in before.now) (data_of member.entry)) }
{
    let Some(value) = member else {
        return Err(MachineFault::Wrong(Part::Name, Why::Missing));
    };
    let Some(name) = value.as_str() else {
        return Err(MachineFault::Wrong(Part::Name, Why::Shape));
    };
    new_name(before, name)?;
    Ok(name)
}

/// The name of an object that has no member that no machine has.
fn head_of<'a>(before: &[String], value: &'a Value) -> Result<&'a str, MachineFault>
    ensures ok { Gives result (λ t. t.now) (head_of (names_in before.now) (view value.now)) }
    ensures err { FailsBy result (head_of (names_in before.now) (view value.now)) }
{
    let Some(members) = value.as_object() else {
        return Err(MachineFault::Wrong(Part::Whole, Why::Shape));
    };
    let name = name_of(before, value.get("name"))?;
    if !are_among(&MEMBERS, members) {
        return Err(MachineFault::Wrong(Part::Whole, Why::Unknown));
    }
    Ok(name)
}

fn random_in(numbers: &Numbers, member: Option<&Value>) -> Result<Constant, MachineFault>
    ensures ok { Gives result (λ c. c) (random_in (numbers_in numbers.now) (data_of member.entry)) }
    ensures err { FailsBy result (random_in (numbers_in numbers.now) (data_of member.entry)) }
{
    match member {
        Some(value) => constant(Part::Random, numbers, value),
        None => Ok(Constant::Number(0)),
    }
}

/// The first wait, which no machine with timers says.
fn first_in(
    timed: bool,
    numbers: &Numbers,
    member: Option<&Value>,
) -> Result<Option<Constant>, MachineFault>
    ensures ok { Gives result
        (λ c. c) (first_in timed (numbers_in numbers.now) (data_of member.entry)) }
    ensures err { FailsBy result (first_in timed (numbers_in numbers.now) (data_of member.entry)) }
{
    match member {
        Some(_) if timed => Err(MachineFault::Wrong(Part::First, Why::Unknown)),
        Some(value) => Ok(Some(constant(Part::First, numbers, value)?)),
        None => Ok(None),
    }
}

/// The greatest wait, which no machine with timers says.
fn longest_in(
    timed: bool,
    numbers: &Numbers,
    member: Option<&Value>,
) -> Result<Option<Constant>, MachineFault>
    ensures ok { Gives result
        (λ c. c) (longest_in timed (numbers_in numbers.now) (data_of member.entry)) }
    ensures err { FailsBy result (longest_in timed (numbers_in numbers.now) (data_of member.entry)) }
{
    match member {
        Some(_) if timed => Err(MachineFault::Wrong(Part::Longest, Why::Unknown)),
        Some(value) => Ok(Some(count(Part::Longest, MAX_TICK, numbers, value)?)),
        None => Ok(None),
    }
}

/// The members behind `random` that are constants.
fn constants_of(
    timed: bool,
    numbers: &Numbers,
    random: Constant,
    value: &Value,
) -> Result<Starts, MachineFault>
    ensures ok { Gives result seen_starts (starts_of (view value.now) timed (numbers_in numbers.now)
        random) }
    ensures err { FailsBy result (starts_of (view value.now) timed (numbers_in numbers.now)
        random) }
{
    let first = first_in(timed, numbers, value.get("first"))?;
    let longest = longest_in(timed, numbers, value.get("longest"))?;
    Ok(Starts {
        random,
        first,
        longest,
    })
}

/// What a machine of these names starts with.
fn starts_of(all: &Scope, random: Constant, value: &Value) -> Result<Starts, MachineFault>
    ensures ok { Gives result seen_starts (starts_of (view value.now) (scope all.now).timed
        (scope all.now).numbers random) }
    ensures err { FailsBy result (starts_of (view value.now) (scope all.now).timed
        (scope all.now).numbers random) }
{
    constants_of(all.timed, &all.numbers, random, value)
}

/// The seed of a machine of these names.
fn seed_of(all: &Scope, value: &Value) -> Result<Constant, MachineFault>
    ensures ok { Gives result (λ c. c) (random_in (scope all.now).numbers
        (get (codes "random") (view value.now))) }
    ensures err { FailsBy result (random_in (scope all.now).numbers
        (get (codes "random") (view value.now))) }
{
    random_in(&all.numbers, value.get("random"))
}

/// What is said by these names.
fn texts_of(alloc: Global, language: &Language<'_>, value: &Value) -> Result<Texts, MachineFault>
    ensures ok { Gives result seen_texts (texts_of (view value.now) (language_of language.now)) }
    ensures err { FailsBy result (texts_of (view value.now) (language_of language.now)) }
{
    let procedures = procedures_said(alloc, language, value.get("procedures"))?;
    let internal = program_in(
        alloc,
        language,
        &procedures,
        Part::Internal,
        value.get("internal"),
    )?;
    let external = program_in(
        alloc,
        language,
        &procedures,
        Part::External,
        value.get("external"),
    )?;
    let outputs = outputs_in(alloc, language, Sender::Machine, value.get("output"))?;
    let words = words_in(alloc, language, value.get("words"))?;
    Ok(Texts {
        sends: false,
        internal,
        external,
        outputs,
        words,
    })
}

/// What is said in the language of a machine of these names, in a file of these fields.
fn texts_in(
    alloc: Global,
    fields: &[FileField],
    all: &Scope,
    value: &Value,
) -> Result<Texts, MachineFault>
    ensures ok { Gives result seen_texts
        (texts_in (map file_field fields.now) (scope all.now) (view value.now)) }
    ensures err { FailsBy result
        (texts_in (map file_field fields.now) (scope all.now) (view value.now)) }
{
    let declared = declared_of(alloc, fields, &all.names)?;
    if all.timed {
        timed_texts(alloc, &declared, all.timer_names(), value)
    } else {
        let plain = Language {
            declared: &declared,
            timing: None,
        };
        texts_of(alloc, &plain, value)
    }
}

/// What is said in the language of a machine of these names, in a file that says this once.
fn texts_said(
    alloc: Global,
    said: &SharedNames,
    all: &Scope,
    value: &Value,
) -> Result<Texts, MachineFault>
    ensures ok { Gives result seen_texts
        (texts_in (shared said.now).fields (scope all.now) (view value.now)) }
    ensures err { FailsBy result
        (texts_in (shared said.now).fields (scope all.now) (view value.now)) }
{
    texts_in(alloc, said.fields.as_slice(), all, value)
}

/// The timers of a machine of these names, if it has the member.
fn timers_of(timed: bool, each: Vec<Timer>, least: Option<Constant>) -> Option<Timers>
    ensures { option_map plain.timers result ≡ timers_of timed each.items least }
{
    if timed {
        Some(Timers { each, least })
    } else {
        None
    }
}

/// All names of a machine: those that it declares, and those that its timers have behind them.
fn all_names(
    alloc: Global,
    names: Vec<Named>,
    timers: &Option<Timers>,
    sends: bool,
) -> Result<Vec<Named>, AllocError>
    ensures { IfOk result (λ all. map plain.name all.items
        ≡ all_names (map plain.name names.items) (option_map plain.timers timers.now) sends) }
{
    match timers {
        Some(timers) => {
            let mut names = names;
            hide_timers(alloc, &mut names, timers, sends)?;
            Ok(names)
        }
        None => Ok(names),
    }
}

/// The machine of this name, of what it declares and says.
fn machine_made(
    alloc: Global,
    name: &str,
    all: Scope,
    starts: Starts,
    least: Option<Constant>,
    texts: Texts,
) -> Result<FileMachine, AllocError>
    ensures { IfOk result (λ m. machine m
        ≡ machine_made name.now (scope all) (seen_starts starts) least (seen_texts texts)) }
{
    let Scope {
        names,
        numbers,
        lists,
        timed,
        timers,
    } = all;
    let timers = timers_of(timed, timers, least);
    let names = all_names(alloc, names, &timers, texts.sends)?;
    let name = String::from_str(alloc, name)?;
    let Numbers { parameters, .. } = numbers;
    Ok(FileMachine {
        name,
        declaration: Declaration {
            names,
            random: starts.random,
            first: starts.first,
            longest: starts.longest,
            timers,
            internal: texts.internal,
            external: texts.external,
            outputs: texts.outputs,
            words: texts.words,
        },
        numbers: parameters,
        lists,
    })
}

/// The machine that an object of `models` declares, in a file that says this once, behind machines of these names.
///
/// The first fault in the order of its members is answered ([`MachineFault`], refusal 21): the value is no object; its
/// name, which none before has; a member that no machine has; then parameters, registers, queues, tables, observations,
/// random, the names of procedures, first, longest, timers (of each its members, name, count, first), least, the
/// procedures' programs, internal, external, of each timer its program and its output, output (of an entry its members, then
/// port, value, when, each) and words. A machine with timers has none of first, longest, internal and output. In registers, queues and tables the order is that of the value's names, and of each its name comes before what it
/// declares. Want of memory (4) may come at any point instead. After any of them nothing is left. What hangs on the
/// numbers of a component, and the limits of the whole machine, is not looked at; a text has at most 4,096 nodes and 64
/// levels by itself. The place in a text is meant to be that of the first word that cannot stand there.
pub fn machine_of(
    alloc: Global,
    said: &SharedNames,
    before: &[String],
    value: &Value,
) -> Result<FileMachine, MachineFault>
    ensures ok { Gives result machine
        (machine_of (shared said.now) (names_in before.now) (view value.now)) }
    ensures err { FailsBy result
        (machine_of (shared said.now) (names_in before.now) (view value.now)) }
{
    let name = head_of(before, value)?;
    let scope = scope_of(alloc, said, value)?;
    let random = seed_of(&scope, value)?;
    let scope = procedures_in(alloc, scope, value.get("procedures"))?;
    let starts = starts_of(&scope, random, value)?;
    let scope = timers_in(alloc, scope, value.get("timers"))?;
    let least = least_in(&scope, value.get("least"))?;
    let texts = texts_said(alloc, said, &scope, value)?;
    Ok(machine_made(alloc, name, scope, starts, least, texts)?)
}
