//! The texts of a machine: programs, and expressions in members.
ghost use Rattle.std.specs.Prelude.{◌≡◌, ◌++◌, [], IfOk, map, option_map, string_bytes};
ghost use Rattle.serde_json.specs.View.{view, items_view};
ghost use Rattle.tw_machine_text.specs.TextViews.{declarations};
ghost use Rattle.tw_machine_text.specs.Views.{body, tree};
ghost use Rattle.tw_machine_declaration.specs.Seen.{name, thing, value};
ghost use Rattle.tw_machine_file.specs.Answers.{Gives, FailsBy, data_of};
ghost use Rattle.tw_machine_file.specs.Said.{SaysPrograms, SaysTrees};
ghost use Rattle.tw_machine_file.specs.Machine.{declared};
ghost use Rattle.tw_machine_file.specs.Seen.{kind_of};
ghost use Rattle.tw_machine_file.specs.Shared.{file_field};
ghost use Rattle.tw_machine_file.specs.Texts.{
  language_of,
  lines,
  more_lines,
  program_in,
  program_text,
  text_of,
  tree_in,
  tree_text,
  value_in,
};

use crate::fault::{MachineFault, Part, Why};
use crate::hiding::field_named;
use crate::shared::FileField;
use crate::values::items_of;
use serde_json::Value;
use std::alloc::{AllocError, Global};
use tw_machine_compiler::{Named, Thing, Value as Said};
use tw_machine_text::{
    Block, Declared, Kind, MAX_NODES, Meaning, Member, SourceExpr, TextRefused, Timing, kinds_of,
    read_member, read_program,
};

/// What a machine's texts may speak of.
#[derive(Clone, Copy)]
pub(crate) struct Language<'a> {
    /// The names that may stand in them.
    pub declared: &'a [Declared],
    /// Of a machine with timers the names behind these, and the timer that a text is of.
    pub timing: Option<Timing>,
}

/// What a thing is, for the texts' reader. No text names a hidden one.
fn kind_of(declared: &Thing) -> Kind
    ensures { result ≡ kind_of (thing declared.now) }
{
    match declared {
        Thing::Parameter(_) => Kind::Parameter,
        Thing::ListParameter(_) => Kind::ListParameter,
        Thing::Register(_) => Kind::Register,
        Thing::RegisterArray(_) => Kind::RegisterArray,
        Thing::Queue(_) => Kind::Queue,
        Thing::QueueArray(..) => Kind::QueueArray,
        Thing::Table(_) => Kind::Table,
        Thing::ListTable(_) => Kind::Table,
        Thing::Observation => Kind::Observation,
        Thing::Procedure(place) => Kind::Procedure(*place),
        Thing::Timer(before) => Kind::Timer(*before),
        Thing::TimerArray(before, last) => Kind::TimerArray(*before, *last),
        Thing::Constant(number) => Kind::Constant(*number),
        Thing::Field
        | Thing::Number(_)
        | Thing::Together(_)
        | Thing::Greatest(_)
        | Thing::Due(_)
        | Thing::Next(_) => Kind::Nothing,
    }
}

/// The names that may stand in the texts of a machine of a file of these fields.
pub(crate) fn declared_of(
    alloc: Global,
    fields: &[FileField],
    names: &[Named],
) -> Result<Vec<Declared>, AllocError>
    ensures { IfOk result
        (λ v. declarations v.items ≡ declared (map file_field fields.now) (map name names.now)) }
{
    let mut declared = Vec::with_capacity(alloc, names.len())?;
    for named in names {
        let meaning = Meaning {
            kind: kind_of(&named.thing),
            field: field_named(fields, named.name.as_bytes()),
        };
        let name = String::from_str(alloc, named.name.as_str())?;
        declared.push(Declared { name, meaning })?;
    }
    Ok(declared)
}

/// What each name stands for, by its number.
pub(crate) fn kinds_in(alloc: Global, language: &Language<'_>) -> Result<Vec<Meaning>, AllocError>
    ensures { IfOk result (λ v. v.items ≡ (language_of language.now).kinds) }
{
    kinds_of(alloc, language.declared)
}

/// A first line, and the lines behind it.
#[tactic(auto, using(crate::proofs::Loops::one_line_more))]
fn lines_behind(alloc: Global, first: &str, values: &[Value]) -> Result<Option<String>, AllocError>
    ensures { IfOk result (λ o. option_map string_bytes o
        ≡ option_map (λ rest. first.now ++ rest) (more_lines (items_view values.now))) }
{
    let mut text = String::from_str(alloc, first)?;
    for value in values {
        let Some(line) = value.as_str() else {
            return Ok(None);
        };
        text.push_str("\n")?;
        text.push_str(line)?;
    }
    Ok(Some(text))
}

/// The lines of an array, joined.
fn lines(alloc: Global, values: &[Value]) -> Result<Option<String>, AllocError>
    ensures { IfOk result (λ o. option_map string_bytes o ≡ lines (items_view values.now)) }
{
    let Some((first, rest)) = values.split_first() else {
        return Ok(Some(String::new(alloc)));
    };
    match first.as_str() {
        Some(line) => lines_behind(alloc, line, rest),
        None => Ok(None),
    }
}

/// A text, or the lines of an array of texts.
fn text_of(alloc: Global, value: &Value) -> Result<Option<String>, AllocError>
    ensures { IfOk result (λ o. option_map string_bytes o ≡ text_of (view value.now)) }
{
    if let Some(text) = value.as_str() {
        return Ok(Some(String::from_str(alloc, text)?));
    }
    match items_of(value) {
        Some(values) => lines(alloc, values),
        None => Ok(None),
    }
}

/// The program that a text says.
fn program(
    alloc: Global,
    language: &Language<'_>,
    procedures: &[Block],
    part: Part,
    text: &str,
) -> Result<Block, MachineFault>
    ensures ok { Gives result body (program_text (language_of language.now)
        (map body procedures.now) part text.now) }
    ensures err { FailsBy result (program_text (language_of language.now)
        (map body procedures.now) part text.now) }
{
    match read_program(
        alloc,
        language.declared,
        language.timing,
        procedures,
        text,
        MAX_NODES,
    ) {
        Ok(read) => Ok(read.block),
        Err(TextRefused::OutOfMemory) => Err(MachineFault::OutOfMemory),
        Err(TextRefused::Wrong(place)) => Err(MachineFault::Text(part, place)),
    }
}

/// The expression, queue or array register that a text says.
fn expression(
    alloc: Global,
    language: &Language<'_>,
    part: Part,
    member: Member,
    text: &str,
) -> Result<SourceExpr, MachineFault>
    ensures ok { Gives result tree (tree_text (language_of language.now) part member text.now) }
    ensures err { FailsBy result (tree_text (language_of language.now) part member text.now) }
{
    match read_member(
        alloc,
        member,
        language.declared,
        language.timing,
        text,
        MAX_NODES,
    ) {
        Ok(read) => Ok(read.tree),
        Err(TextRefused::OutOfMemory) => Err(MachineFault::OutOfMemory),
        Err(TextRefused::Wrong(place)) => Err(MachineFault::Text(part, place)),
    }
}

/// The program of a member, which does nothing where there is none.
pub(crate) fn program_in(
    alloc: Global,
    language: &Language<'_>,
    procedures: &[Block],
    part: Part,
    member: Option<&Value>,
) -> Result<Block, MachineFault>
    ensures ok { Gives result body (program_in (language_of language.now)
        (map body procedures.now) part (data_of member.entry)) }
    ensures err { FailsBy result (program_in (language_of language.now)
        (map body procedures.now) part (data_of member.entry)) }
{
    let Some(value) = member else {
        return Ok(Block::Empty);
    };
    match text_of(alloc, value)? {
        Some(text) => program(alloc, language, procedures, part, text.as_str()),
        None => Err(MachineFault::Wrong(part, Why::Shape)),
    }
}

/// The text of a member.
pub(crate) fn tree_in(
    alloc: Global,
    language: &Language<'_>,
    part: Part,
    member: Member,
    value: &Value,
) -> Result<SourceExpr, MachineFault>
    ensures ok { Gives result tree (tree_in (language_of language.now) part member
        (view value.now)) }
    ensures err { FailsBy result (tree_in (language_of language.now) part member (view value.now)) }
{
    match value.as_str() {
        Some(text) => expression(alloc, language, part, member, text),
        None => Err(MachineFault::Wrong(part, Why::Shape)),
    }
}

/// A whole number, or a text.
pub(crate) fn value_in(
    alloc: Global,
    language: &Language<'_>,
    part: Part,
    member: Member,
    written: &Value,
) -> Result<Said, MachineFault>
    ensures ok { Gives result value (value_in (language_of language.now) part member
        (view written.now)) }
    ensures err { FailsBy result (value_in (language_of language.now) part member
        (view written.now)) }
{
    match written.as_i64() {
        Some(number) => Ok(Said::Number(number)),
        None => Ok(Said::Text(tree_in(alloc, language, part, member, written)?)),
    }
}

/// What a text says is what the grammar gives it: no other program and no other expression. It does nothing.
pub fn said_law()
    ensures programs { SaysPrograms }
    ensures trees { SaysTrees }
{}
