//! The flat couplings: from each port of an atom to each that is reached from it.

ghost use Rattle.std.specs.Prelude.{◌≡◌, ◌≢◌, ◌<◌, ◌≤◌, ◌+◌, ◌-◌, ◌*◌, IfOk, IfErr, OnOk, length};
ghost use Rattle.std.specs.List.{All};
ghost use Rattle.tw_nested.specs.Reach.{IsWithin, MarksReached, Rises};
ghost use Rattle.tw_nested.specs.Flat.{IsCollected, IsFlatSet, IsTooMany, in_of, out_of, port_out_of};
ghost use Rattle.tw_nested.specs.declared.collect.FlatRefused.TheVariants.{OutOfMemory};

use crate::limits::{MAX_COUPLINGS, PORTS};
use crate::reach::{Edge, reached, sources};
use std::alloc::{AllocError, AllocFailed, Global};

/// A coupling of atoms: source, its port, destination, its port.
pub type Coupling = (usize, u8, usize, u8);

/// Why there are no flat couplings.
#[derive(Clone, Copy, Debug, PartialEq, Eq)]
pub enum FlatRefused {
    /// A growth of memory was refused.
    OutOfMemory,
    /// There are more than 8,192.
    TooMany,
}

impl From<AllocError> for FlatRefused {
    ghost use Rattle.std.specs.Prelude.{◌≡◌};
    ghost use Rattle.tw_nested.specs.declared.collect.FlatRefused.TheVariants.{OutOfMemory};

    ghost from_gives = { λ _ refused. refused ≡ OutOfMemory };

    fn from(_error: AllocError) -> FlatRefused {
        FlatRefused::OutOfMemory
    }
}

impl<T: Drop> From<AllocFailed<T>> for FlatRefused {
    ghost use Rattle.std.specs.Prelude.{◌≡◌};
    ghost use Rattle.tw_nested.specs.declared.collect.FlatRefused.TheVariants.{OutOfMemory};

    ghost from_gives = { λ _ refused. refused ≡ OutOfMemory };

    fn from(_failed: AllocFailed<T>) -> FlatRefused {
        FlatRefused::OutOfMemory
    }
}

/// The number of a port of a part, on its outer side: what the part puts out.
pub(crate) fn out_of(count: usize, part: usize, port: usize) -> usize
    requires few { count ≤ 4096 }
    requires known { part < count }
    requires port { port < 16 }
    ensures { result ≡ out_of count part port }
{
    PORTS * (count - (part + 1)) + port
}

/// The number of a port of a part where it takes in.
pub(crate) fn in_of(count: usize, part: usize, port: usize) -> usize
    requires few { count ≤ 4096 }
    requires known { part < count }
    requires port { port < 16 }
    ensures { result ≡ in_of count part port }
{
    PORTS * (count + part) + port
}

// Adds a coupling from a port of an atom to each that is reached from it.
fn collect(
    flat: &mut Vec<Coupling>,
    count: usize,
    edges: &[Edge],
    atoms: &[usize],
    from: usize,
    seen: &[bool],
) -> Result<(), FlatRefused>
    requires few { count ≤ 4096 }
    requires atoms_few { length atoms.now ≤ 1024 }
    requires atoms { All (λ n. n < count) atoms.now }
    requires from { from < 16 * length atoms.now }
    requires long { length seen.now ≡ 32 * count }
    requires seen { MarksReached edges.now (32 * count)
        (port_out_of count atoms.now from) seen.now }
    requires before { IsCollected count edges.now atoms.now flat.old.items from 0 }
    ensures ok { OnOk result (IsCollected count edges.now atoms.now flat.new.items (from + 1) 0) }
    ensures err { IfErr result (λ e. e ≢ OutOfMemory → IsTooMany count edges.now atoms.now) }
{
    let ports = PORTS * atoms.len();
    for to in 0..ports {
        if seen[in_of(count, atoms[to / PORTS], to % PORTS)] {
            if flat.len() >= MAX_COUPLINGS {
                return Err(FlatRefused::TooMany);
            }
            flat.push((
                from / PORTS,
                (from % PORTS) as u8,
                to / PORTS,
                (to % PORTS) as u8,
            ))?;
        }
    }
    Ok(())
}

/// The flat couplings of parts whose ports are coupled so.
pub(crate) fn flat_couplings(
    alloc: Global,
    count: usize,
    edges: &[Edge],
    atoms: &[usize],
) -> Result<Vec<Coupling>, FlatRefused>
    requires few { count ≤ 4096 }
    requires atoms_few { length atoms.now ≤ 1024 }
    requires atoms { All (λ n. n < count) atoms.now }
    requires within { All (IsWithin (32 * count)) edges.now }
    requires rises { Rises edges.now }
    ensures ok { IfOk result (λ flat. IsFlatSet count edges.now atoms.now flat.items) }
    ensures err { IfErr result (λ e. e ≢ OutOfMemory → IsTooMany count edges.now atoms.now) }
{
    let mut flat = Vec::new(alloc);
    let leads = sources(alloc, 2 * PORTS * count, edges)?;
    for from in 0..PORTS * atoms.len() {
        let start = out_of(count, atoms[from / PORTS], from % PORTS);
        if leads[start] {
            let seen = reached(alloc, 2 * PORTS * count, edges, start)?;
            collect(&mut flat, count, edges, atoms, from, seen.as_slice())?;
        }
    }
    Ok(flat)
}
