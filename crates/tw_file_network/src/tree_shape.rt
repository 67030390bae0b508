//! What the JSON value of a file of format `tw-2` or `tw-3` says: a tree of components.

ghost use Rattle.std.specs.Prelude.{◌≡◌, ◌≢◌, ◌≤◌, Some, None, IfOk, IfErr, codes, map, option_map, string_bytes};
ghost use Rattle.serde_json.specs.View.{view, items_view};
ghost use Rattle.tw_file_network.specs.Answers.{HasNoShape};
ghost use Rattle.tw_machine_file.specs.Seen.{machine};
ghost use Rattle.tw_file_members.specs.Members.{text_at};
ghost use Rattle.tw_nested.specs.Tree.{part_view, parts_of};
ghost use Rattle.tw_file_network.specs.Draft.{couplings_view};
ghost use Rattle.tw_file_network.specs.TreeDraft.{tree_view};
ghost use Rattle.tw_file_network.specs.TreeShape.{
  count_of_one,
  is_machines_format,
  is_tree_format,
  links_named,
  machines_declared,
  machines_file_with,
  member_count,
  part_names,
  part_read,
  parts_read,
  tree_file_of,
  tree_read,
};

use crate::draft::{AnyDraft, CouplingDraft, TreeDraft};
use crate::machines::machines_at;
use crate::numbers::Numbers;
use crate::refused::FileRefused;
use crate::shape::{component_of, couplings_of, inputs_of};
use serde_json::Value;
use std::alloc::{AllocError, Global};
use tw_file_members::{
    count_at, has_few_numbers, has_format, has_members, is_file, items_at, text_at,
};
use tw_machine_file::FileMachine;
use tw_network::{Link, Nested, Part};

/// More levels than a JSON text of 127 levels can have: a level of parts takes two, an object and an array.
const ROOM: usize = 64;

/// Whether the value is that of a file of this format.
pub(crate) fn is_tree(value: &Value) -> bool
    ensures { result ≡ is_tree_format (text_at (codes "format") (view value.now)) }
{
    has_format(value, "tw-2")
}

/// What the file's value says, where it has the shape of a file of this format.
pub(crate) fn tree_draft_of<'a>(
    alloc: Global,
    value: &'a Value,
) -> Result<TreeDraft<'a>, FileRefused>
    ensures ok { IfOk result (λ d. tree_file_of (view value.now) ≡ Some (tree_view d)) }
    ensures err { HasNoShape result (tree_file_of (view value.now)) }
{
    if !is_file(value, 5, "tw-2") {
        return Err(FileRefused::BadShape);
    }
    let Some(micro_limit) = count_at(value, "micro_limit") else {
        return Err(FileRefused::BadShape);
    };
    let root = tree_read(alloc, &[], value, ROOM)?;
    let Some(inputs) = items_at(value, "inputs") else {
        return Err(FileRefused::BadShape);
    };
    let inputs = inputs_of(alloc, inputs)?;
    Ok(TreeDraft {
        micro_limit,
        root,
        inputs,
    })
}

/// Whether the value is that of a file of format `tw-3`.
pub(crate) fn has_machines(value: &Value) -> bool
    ensures { result ≡ is_machines_format (text_at (codes "format") (view value.now)) }
{
    has_format(value, "tw-3")
}

/// Whether a member is there, as a count.
fn count_of_one(member: Option<&Value>) -> usize
    ensures value { result ≡ count_of_one (option_map (λ v. view v.now) member.entry) }
    ensures small { result ≤ 1 }
{
    if member.is_some() { 1 } else { 0 }
}

/// How many members a file of format `tw-3` has: `fields` and `constants` may be left out.
fn member_count(value: &Value) -> usize
    ensures { result ≡ member_count (view value.now) }
{
    6 + (count_of_one(value.get("fields")) + count_of_one(value.get("constants")))
}

/// The machines of a file of format `tw-3`.
pub(crate) fn machines_declared(
    alloc: Global,
    value: &Value,
) -> Result<Vec<FileMachine>, FileRefused>
    ensures ok { IfOk result
        (λ ms. machines_declared (view value.now) ≡ Some (map machine ms.items)) }
    ensures err { HasNoShape result (machines_declared (view value.now)) }
{
    if !is_file(value, member_count(value), "tw-3") {
        return Err(FileRefused::BadShape);
    }
    machines_at(alloc, value)
}

/// What else the file says, where its components may be these machines.
pub(crate) fn machines_draft_with<'a>(
    alloc: Global,
    value: &'a Value,
    machines: &'a [FileMachine],
) -> Result<TreeDraft<'a>, FileRefused>
    ensures ok { IfOk result
        (λ d. machines_file_with (view value.now) (map machine machines.now) ≡ Some (tree_view d)) }
    ensures err { HasNoShape result (machines_file_with (view value.now)
        (map machine machines.now)) }
{
    if !has_few_numbers(machines, value) {
        return Err(FileRefused::BadShape);
    }
    let Some(micro_limit) = count_at(value, "micro_limit") else {
        return Err(FileRefused::BadShape);
    };
    let root = tree_read(alloc, machines, value, ROOM)?;
    let Some(inputs) = items_at(value, "inputs") else {
        return Err(FileRefused::BadShape);
    };
    let inputs = inputs_of(alloc, inputs)?;
    Ok(TreeDraft {
        micro_limit,
        root,
        inputs,
    })
}

/// The parts and couplings of a model of no more levels than there is room for.
#[cycle(trees)]
fn tree_read<'m>(
    alloc: Global,
    machines: &'m [FileMachine],
    value: &'m Value,
    room: usize,
) -> Result<Nested<AnyDraft<'m>>, FileRefused>
    ensures ok { IfOk result (λ n. tree_read (map machine machines.now) room (view value.now)
        ≡ Some (parts_of n.parts.items, n.couplings.items)) }
    ensures err { HasNoShape result (tree_read (map machine machines.now) room (view value.now)) }
{
    if room == 0 {
        return Err(FileRefused::BadShape);
    }
    let Some(components) = items_at(value, "components") else {
        return Err(FileRefused::BadShape);
    };
    let parts = parts_read(alloc, machines, components, room - 1)?;
    let Some(couplings) = items_at(value, "couplings") else {
        return Err(FileRefused::BadShape);
    };
    let drafts = couplings_of(alloc, couplings)?;
    let couplings = links_named(alloc, parts.as_slice(), drafts.as_slice())?;
    Ok(Nested { parts, couplings })
}

#[cycle(trees)]
fn parts_read<'m>(
    alloc: Global,
    machines: &'m [FileMachine],
    values: &'m [Value],
    room: usize,
) -> Result<Vec<(String, Part<AnyDraft<'m>>)>, FileRefused>
    ensures ok { IfOk result
        (λ v. parts_read (map machine machines.now) (tree_read (map machine machines.now) room)
        (items_view values.now) ≡ Some (parts_of v.items)) }
    ensures err { IfErr result (λ e. e ≢ FileRefused.OutOfMemory
        → (e ≡ FileRefused.BadShape) × (parts_read (map machine machines.now) (tree_read (map machine machines.now) room) (items_view values.now) ≡ None)) }
{
    let mut parts = Vec::new(alloc);
    for value in values {
        parts.push(part_read(alloc, machines, value, room)?)?;
    }
    Ok(parts)
}

#[cycle(trees)]
fn part_read<'m>(
    alloc: Global,
    machines: &'m [FileMachine],
    value: &'m Value,
    room: usize,
) -> Result<(String, Part<AnyDraft<'m>>), FileRefused>
    ensures ok { IfOk result
        (λ p. part_read (map machine machines.now) (tree_read (map machine machines.now) room)
        (view value.now) ≡ Some (part_view p.1 (string_bytes p.0))) }
    ensures err { HasNoShape result (part_read (map machine machines.now)
        (tree_read (map machine machines.now) room) (view value.now)) }
{
    match component_of(alloc, machines, value) {
        Ok(component) => {
            let name = String::from_str(alloc, component.name)?;
            return Ok((name, Part::Atom(component.model)));
        }
        Err(FileRefused::BadShape) => {}
        Err(refused) => return Err(refused),
    }
    if !has_members(value, 3) {
        return Err(FileRefused::BadShape);
    }
    let Some(name) = text_at(value, "name") else {
        return Err(FileRefused::BadShape);
    };
    let inner = tree_read(alloc, machines, value, room)?;
    let name = String::from_str(alloc, name)?;
    Ok((name, Part::Coupled(inner)))
}

/// The couplings of a model, by the places of its parts.
fn links_named(
    alloc: Global,
    parts: &[(String, Part<AnyDraft<'_>>)],
    drafts: &[CouplingDraft<'_>],
) -> Result<Vec<Link>, AllocError>
    ensures { IfOk result
        (λ v. v.items ≡ links_named (parts_of parts.now) (couplings_view drafts.now)) }
{
    let names = part_names(alloc, parts)?;
    let numbers = Numbers::new(alloc, names.as_slice())?;
    numbers.links(alloc, drafts)
}

fn part_names<'a>(
    alloc: Global,
    parts: &'a [(String, Part<AnyDraft<'_>>)],
) -> Result<Vec<&'a str>, AllocError>
    ensures { IfOk result (λ v. map (λ n. n.now) v.items ≡ part_names (parts_of parts.now)) }
{
    let mut names = Vec::with_capacity(alloc, parts.len())?;
    for (name, _) in parts {
        names.push(name.as_str())?;
    }
    Ok(names)
}
