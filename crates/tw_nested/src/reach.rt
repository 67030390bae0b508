//! What is reached from a port along couplings.

ghost use Rattle.std.specs.Prelude.{◌≡◌, ◌<◌, IfOk, length};
ghost use Rattle.std.specs.List.{All};
ghost use Rattle.tw_nested.specs.Reach.{IsMarked, IsWithin, MarksReached, Rises};

use std::alloc::{AllocError, Global};

/// A coupling of two ports, by their numbers.
pub(crate) type Edge = (usize, usize);

/// For each of `count` ports, whether it is reached from a port along couplings that lead upwards and stand
/// in the order of their sources.
pub(crate) fn reached(
    alloc: Global,
    count: usize,
    edges: &[Edge],
    start: usize,
) -> Result<Vec<bool>, AllocError>
    requires start { start < count }
    requires within { All (IsWithin count) edges.now }
    requires rises { Rises edges.now }
    ensures long { IfOk result (λ seen. length seen.items ≡ count) }
    ensures exact { IfOk result (λ seen. MarksReached edges.now count start seen.items) }
{
    let mut seen = vec![in alloc; false; count]?;
    seen[start] = true;
    for (from, to) in edges {
        if seen[*from] {
            seen[*to] = true;
        }
    }
    Ok(seen)
}

/// For each of `count` ports, whether a coupling may lead on from it: true for each from which one does.
pub(crate) fn sources(alloc: Global, count: usize, edges: &[Edge]) -> Result<Vec<bool>, AllocError>
    requires within { All (IsWithin count) edges.now }
    ensures long { IfOk result (λ leads. length leads.items ≡ count) }
    ensures all { IfOk result (λ leads. All (λ e. IsMarked leads.items e.0) edges.now) }
{
    let mut leads = vec![in alloc; false; count]?;
    for (from, _) in edges {
        leads[*from] = true;
    }
    Ok(leads)
}
