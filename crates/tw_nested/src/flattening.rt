//! The atoms of a tree and its flat couplings.

ghost use Rattle.std.specs.List.{All};
ghost use Rattle.std.specs.Prelude.{◌≡◌, ◌≢◌, ◌<◌, ◌≤◌, [], map, string_bytes, IfErr, IfOk, length};
ghost use Rattle.tw_nested.specs.Flat.{Coupling};
ghost use Rattle.tw_nested.specs.Tree.{atoms_from, flat_names, links_of, models_in, size, tree_of};
ghost use Rattle.tw_nested.specs.Whole.{AreCouplings, AreLinked, AreTooMany};
ghost use Rattle.tw_nested.specs.declared.collect.FlatRefused.TheVariants.{OutOfMemory};

use crate::collect::{Coupling, FlatRefused, flat_couplings};
use crate::edges::edges;
use crate::tables::{Tables, take};
use crate::tree::Nested;
use std::alloc::Global;

/// The atoms of a tree, in order, and the couplings along which its paths lead.
#[derive(Drop)]
pub struct Flat<M> {
    /// Each atom's name: the names on its way from the root, joined by `.`.
    pub names: Vec<String>,
    /// The atoms' models.
    pub models: Vec<M>,
    /// The couplings along which a path leads, each once, by source, port, destination and port.
    pub couplings: Vec<Coupling>,
}

/// Flattens a tree in which nothing is at fault, of at most 2,048 parts and 1,024 atoms.
///
/// Refused by [`FlatRefused::TooMany`] only where more than 8,192 couplings of atoms would come of it, and by
/// [`FlatRefused::OutOfMemory`] for want of memory. The tree is given up.
pub fn flatten<M: Drop>(alloc: Global, nested: Nested<M>) -> Result<Flat<M>, FlatRefused>
    requires few { size (tree_of nested) ≤ 2048 }
    requires atoms { length (atoms_from 1 (tree_of nested)) ≤ 1024 }
    requires linked { AreLinked (tree_of nested) (links_of nested) }
    ensures names { IfOk result
        (λ f. map string_bytes f.names.items ≡ flat_names [] (tree_of nested)) }
    ensures models { IfOk result (λ f. f.models.items ≡ models_in (tree_of nested)) }
    ensures couplings { IfOk result
        (λ f. AreCouplings (tree_of nested) (links_of nested) f.couplings.items) }
    ensures apart { IfOk result (λ f. All (λ (k : Coupling). k.0 ≢ k.2) f.couplings.items) }
    ensures too_many { IfErr result
        (λ e. e ≢ OutOfMemory → AreTooMany (tree_of nested) (links_of nested)) }
{
    let mut tables = Tables {
        count: 1,
        names: Vec::new(alloc),
        models: Vec::new(alloc),
        atoms: Vec::new(alloc),
        coupled: Vec::new(alloc),
    };
    take(alloc, nested, 0, "", &mut tables)?;
    let edges = edges(alloc, tables.count, tables.coupled.as_slice())?;
    let couplings = flat_couplings(
        alloc,
        tables.count,
        edges.as_slice(),
        tables.atoms.as_slice(),
    )?;
    Ok(Flat {
        names: tables.names,
        models: tables.models,
        couplings,
    })
}
