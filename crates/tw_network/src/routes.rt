//! Where each output goes: an index of the couplings by source and port.

ghost use Rattle.std.specs.Prelude.{◌≡◌, ◌<◌, ◌≤◌, ◌+◌, ◌*◌, IfOk, length, map, slice_index};
ghost use Rattle.std.specs.List.{All};
ghost use Rattle.std.specs.List.Sorted.{IsPermutation, IsSorted};
ghost use Rattle.tw_network.specs.Contents.{IsCoupling};
ghost use Rattle.tw_network.specs.RouteIndex.{IsRouteIndex, IsStart, coupling_cmp, part_of, place_of, AreStarts, places_of_part};

use crate::wiring::{Coupling, Place};
use std::alloc::{AllocError, Global};
use tw_nested::PORTS;

/// The places of all couplings, by source, port, destination and port, and where those of each source and
/// port begin.
#[derive(Drop)]
pub(crate) struct Routes {
    places: Vec<Place>,
    starts: Vec<usize>,
}

impl Routes {
    /// The index of these couplings of `count` components.
    pub fn new(alloc: Global, count: usize, couplings: &[Coupling]) -> Result<Routes, AllocError>
        requires few { count ≤ 1024 }
        requires couplings { All (IsCoupling count) couplings.now }
        ensures { IfOk result
            (λ r. IsRouteIndex couplings.now count r.places.items r.starts.items) }
    {
        let sorted = in_order(alloc, couplings)?;
        let starts = starts_of(alloc, count, sorted.as_slice())?;
        let places = places_of(alloc, sorted.as_slice())?;
        Ok(Routes { places, starts })
    }

    /// The places of a part.
    pub fn part(&self, part: usize) -> &[Place]
        requires known { part + 1 < length self.now.starts.items }
        requires in_order { let starts = self.now.starts.items in
            slice_index starts part ≤ slice_index starts (part + 1) }
        requires within { let starts = self.now.starts.items in
            slice_index starts (part + 1) ≤ length self.now.places.items }
        ensures { result.now ≡ places_of_part self.now.places.items self.now.starts.items part }
    {
        let start = self.starts[part];
        let end = self.starts[part + 1];
        &self.places.as_slice()[start..end]
    }
}

/// The couplings by source, port, destination and port.
fn in_order(alloc: Global, couplings: &[Coupling]) -> Result<Vec<Coupling>, AllocError>
    ensures same { IfOk result (λ sorted. IsPermutation couplings.now sorted.items) }
    ensures in_order { IfOk result (λ sorted. IsSorted coupling_cmp sorted.items) }
{
    let mut sorted = Vec::from_slice(alloc, couplings)?;
    sorted.as_mut_slice().sort_unstable();
    Ok(sorted)
}

/// Where the couplings lead, in their order.
fn places_of(alloc: Global, couplings: &[Coupling]) -> Result<Vec<Place>, AllocError>
    ensures { IfOk result (λ places. places.items ≡ map place_of couplings.now) }
{
    couplings
        .iter()
        .map(|(_, _, destination, port)| (*destination, *port))
        .collect(alloc)
}

/// Where the couplings of each part begin among all of them, in order.
fn starts_of(alloc: Global, count: usize, sorted: &[Coupling]) -> Result<Vec<usize>, AllocError>
    requires few { count ≤ 1024 }
    requires couplings { All (IsCoupling count) sorted.now }
    requires in_order { IsSorted coupling_cmp sorted.now }
    ensures parts { IfOk result (λ starts. length starts.items ≡ 16 * count + 1) }
    ensures starts { IfOk result (λ starts. AreStarts sorted.now count starts.items) }
{
    let parts = PORTS * count;
    let mut starts = Vec::with_capacity(alloc, parts + 1)?;
    for part in 0..parts + 1 {
        starts.push(start_of(sorted, part / PORTS, (part % PORTS) as u8))?;
    }
    Ok(starts)
}

/// Where the couplings of a port of a component begin among all of them, in order.
fn start_of(sorted: &[Coupling], component: usize, port: u8) -> usize
    requires port { port < 16 }
    requires ports { All (λ k. k.1 < 16) sorted.now }
    requires in_order { IsSorted coupling_cmp sorted.now }
    ensures { IsStart sorted.now (part_of component port) result }
{
    sorted.partition_point(|k| k.0 < component || k.0 == component && k.1 < port)
}
