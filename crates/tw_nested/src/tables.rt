//! A tree taken apart: each part by its number, depth first.

ghost use Rattle.std.specs.Prelude.{◌≡◌, ◌<◌, ◌+◌, ◌++◌, ◌∷◌, [], map, string_bytes, IfErr, IfOk, OnOk};
ghost use Rattle.tw_nested.specs.Tree.{only_part, size, tree_of};
ghost use Rattle.tw_nested.specs.Taken.{Taken, TakenModel};

use crate::collect::FlatRefused;
use crate::tree::{Link, Nested, Part};
use std::alloc::{AllocError, Global};

/// A coupled model among all of a tree: its number, the numbers of its parts in order, its couplings.
#[derive(Drop)]
pub(crate) struct Coupled {
    pub number: usize,
    pub parts: Vec<usize>,
    pub links: Vec<Link>,
}

/// How many parts there are so far, the root among them; the atoms' names, models and numbers; the coupled models.
#[derive(Drop)]
pub(crate) struct Tables<M> {
    pub count: usize,
    pub names: Vec<String>,
    pub models: Vec<M>,
    pub atoms: Vec<usize>,
    pub coupled: Vec<Coupled>,
}

// One text after another.
fn joined(alloc: Global, one: &str, other: &str) -> Result<String, AllocError>
    ensures { IfOk result (λ s. string_bytes s ≡ one.now ++ other.now) }
{
    let mut joined = String::from_str(alloc, one)?;
    joined.push_str(other)?;
    Ok(joined)
}

// What comes before the names of the parts of a part that has this name.
fn prefix_within(alloc: Global, prefix: &str, name: &str) -> Result<String, AllocError>
    ensures { IfOk result (λ s. string_bytes s ≡ prefix.now ++ name.now ++ 46 ∷ []) }
{
    let mut within = joined(alloc, prefix, name)?;
    within.push_str(".")?;
    Ok(within)
}

/// Adds a coupled model and all in it, each atom's name after this prefix.
#[cycle(take)]
pub(crate) fn take<M: Drop>(
    alloc: Global,
    nested: Nested<M>,
    number: usize,
    prefix: &str,
    tables: &mut Tables<M>,
) -> Result<(), FlatRefused>
    requires fits { tables.old.count + size (tree_of nested) < 4096 }
    ensures taken { OnOk result (TakenModel number prefix.now nested tables.old tables.new) }
    ensures memory { IfErr result (λ e. e ≡ FlatRefused.OutOfMemory) }
{
    let mut parts = Vec::new(alloc);
    let links = nested.couplings;
    for (name, part) in nested.parts {
        parts.push(tables.count)?;
        take_part(alloc, name.as_str(), part, prefix, tables)?;
    }
    tables.coupled.push(Coupled {
        number,
        parts,
        links,
    })?;
    Ok(())
}

// Adds a part of this name, which gets the next number, and all in it.
#[cycle(take)]
fn take_part<M: Drop>(
    alloc: Global,
    name: &str,
    part: Part<M>,
    prefix: &str,
    tables: &mut Tables<M>,
) -> Result<(), FlatRefused>
    requires fits { tables.old.count + size (only_part name.now part) < 4096 }
    ensures taken { OnOk result (Taken prefix.now (only_part name.now part) tables.old tables.new) }
    ensures memory { IfErr result (λ e. e ≡ FlatRefused.OutOfMemory) }
{
    let number = tables.count;
    tables.count = number + 1;
    match part {
        Part::Atom(model) => {
            let name = joined(alloc, prefix, name)?;
            tables.names.push(name)?;
            tables.models.push(model)?;
            tables.atoms.push(number)?;
            Ok(())
        }
        Part::Coupled(inner) => {
            let prefix = prefix_within(alloc, prefix, name)?;
            take(alloc, inner, number, prefix.as_str(), tables)
        }
    }
}
