//! The components of a network that are shown.

ghost use Rattle.std.specs.Prelude.{◌≡◌, IfOk, map, option_map};
ghost use Rattle.std.specs.List.{list_all};
ghost use Rattle.tw_figures.specs.Shown.{is_among, is_shown, parted, shown_among, shown_of};

use std::alloc::{AllocError, Global};
use tw_atomic::Atomic;
use tw_network::Network;

/// Whether each component of a network is shown: each, or, with `only`, those that have one of these names, which are parted by
/// commas. `None` exactly where no component has one of the names.
///
/// Refused for want of memory (4).
pub fn shown_of<M: Atomic>(
    alloc: Global,
    network: &Network<M>,
    only: Option<&str>,
) -> Result<Option<Vec<bool>>, AllocError>
    ensures { IfOk result (λ shown. option_map (λ s. s.items) shown
        ≡ shown_of network.now.names (option_map (λ o. o.now) only.entry)) }
{
    let names = names_of(alloc, network)?;
    match only {
        Some(only) => shown_in(alloc, &names, only.as_bytes()),
        None => Ok(Some(vec![in alloc; true; names.len()]?)),
    }
}

/// Whether each of these names is in a list that commas part; `None` where a name in that is none of them. Refused for want of
/// memory (4).
fn shown_in(alloc: Global, names: &[&[u8]], only: &[u8]) -> Result<Option<Vec<bool>>, AllocError>
    ensures { IfOk result (λ shown. option_map (λ s. s.items) shown
        ≡ shown_among (map (λ n. n.now) names.now) (parted only.now)) }
{
    let wanted = parted(alloc, only)?;
    shown_among(alloc, names, &wanted)
}

/// Whether the component of a number is shown; one that there is not is not.
pub fn is_shown(shown: &[bool], component: usize) -> bool
    ensures { result ≡ is_shown shown.now component }
{
    shown.get(component).copied().unwrap_or(false)
}

/// The names of the components. Refused for want of memory (4).
fn names_of<M: Atomic>(alloc: Global, network: &Network<M>) -> Result<Vec<&[u8]>, AllocError>
    ensures { IfOk result (λ names. map (λ n. n.now) names.items ≡ network.now.names) }
{
    network.facts();
    let mut names = Vec::new(alloc);
    for component in 0..network.len() {
        names.push(network.name(component).as_bytes())?;
    }
    Ok(names)
}

/// The names in a list that commas part. Refused for want of memory (4).
fn parted<'a>(alloc: Global, only: &'a [u8]) -> Result<Vec<&'a [u8]>, AllocError>
    ensures { IfOk result (λ names. map (λ n. n.now) names.items ≡ parted only.now) }
{
    only.split(|byte| *byte == b',').collect(alloc)
}

/// Whether each of these names is wanted; `None` where a wanted one is none of them. Refused for want of memory (4).
fn shown_among(
    alloc: Global,
    names: &[&[u8]],
    wanted: &[&[u8]],
) -> Result<Option<Vec<bool>>, AllocError>
    ensures { IfOk result (λ shown. option_map (λ s. s.items) shown
        ≡ shown_among (map (λ n. n.now) names.now) (map (λ n. n.now) wanted.now)) }
{
    if !are_among(names, wanted) {
        return Ok(None);
    }
    Ok(Some(marked(alloc, names, wanted)?))
}

/// Whether a name is one of these.
fn is_among(names: &[&[u8]], name: &[u8]) -> bool
    ensures { result ≡ is_among (map (λ n. n.now) names.now) name.now }
{
    for one in names {
        if *one == name {
            return true;
        }
    }
    false
}

/// Whether each wanted name is one of these.
fn are_among(names: &[&[u8]], wanted: &[&[u8]]) -> bool
    ensures { result ≡ list_all (is_among (map (λ n. n.now) names.now))
        (map (λ n. n.now) wanted.now) }
{
    for name in wanted {
        if !is_among(names, name) {
            return false;
        }
    }
    true
}

/// Whether each of these names is wanted. Refused for want of memory (4).
fn marked(alloc: Global, names: &[&[u8]], wanted: &[&[u8]]) -> Result<Vec<bool>, AllocError>
    ensures { IfOk result (λ shown. shown.items
        ≡ map (is_among (map (λ n. n.now) wanted.now)) (map (λ n. n.now) names.now)) }
{
    let mut shown = Vec::new(alloc);
    for name in names {
        shown.push(is_among(wanted, name))?;
    }
    Ok(shown)
}
