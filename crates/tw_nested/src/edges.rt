//! The couplings of all models, as couplings of numbered ports.

ghost use Rattle.std.specs.Prelude.{◌≡◌, ◌<◌, ◌≤◌, ◌*◌, ◌++◌, IfOk, OnOk, map};
ghost use Rattle.std.specs.List.{All};
ghost use Rattle.std.specs.List.Sorted.{IsPermutation, IsSorted};
ghost use Rattle.tw_nested.specs.Edges.{AreEdges, edge_cmp, edges_of};
ghost use Rattle.tw_nested.specs.Paths.{IsLink, IsModel, edge_of};
ghost use Rattle.tw_nested.specs.Taken.{model_of};

use crate::collect::{in_of, out_of};
use crate::reach::Edge;
use crate::tables::Coupled;
use crate::tree::{End, Link};
use std::alloc::{AllocError, Global};

// The coupling of two ports that a coupling of a model makes.
fn edge(count: usize, model: &Coupled, link: Link) -> Edge
    requires few { count ≤ 4096 }
    requires model { IsModel count (model_of model.now) }
    requires link { IsLink (model_of model.now) link }
    ensures { result ≡ edge_of count (model_of model.now) link }
{
    let (source, from, destination, to) = link;
    let start = match source {
        End::Here => in_of(count, model.number, usize::from(from)),
        End::Part(place) => out_of(count, model.parts[place], usize::from(from)),
    };
    let end = match destination {
        End::Here => out_of(count, model.number, usize::from(to)),
        End::Part(place) => in_of(count, model.parts[place], usize::from(to)),
    };
    (start, end)
}

// Adds the couplings of a model.
fn add_edges(edges: &mut Vec<Edge>, count: usize, model: &Coupled) -> Result<(), AllocError>
    requires few { count ≤ 4096 }
    requires model { IsModel count (model_of model.now) }
    ensures { OnOk result
        (edges.new.items ≡ edges.old.items ++ edges_of count (model_of model.now)) }
{
    for link in &model.links {
        edges.push(edge(count, model, *link))?;
    }
    Ok(())
}

/// The couplings of all models, in the order of their sources.
pub(crate) fn edges(
    alloc: Global,
    count: usize,
    coupled: &[Coupled],
) -> Result<Vec<Edge>, AllocError>
    requires few { count ≤ 4096 }
    requires models { All (IsModel count) (map model_of coupled.now) }
    ensures { IfOk result (λ edges. AreEdges count (map model_of coupled.now) edges.items) }
{
    let mut edges = Vec::new(alloc);
    for model in coupled {
        add_edges(&mut edges, count, model)?;
    }
    Ok(in_order(edges))
}

// The couplings by source and destination.
fn in_order(edges: Vec<Edge>) -> Vec<Edge>
    ensures same { IsPermutation edges.items result.items }
    ensures in_order { IsSorted edge_cmp result.items }
{
    let mut sorted = edges;
    sorted.as_mut_slice().sort_unstable();
    sorted
}
