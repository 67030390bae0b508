//! Whether a tree is small enough to be a network.

ghost use Rattle.std.specs.Prelude.{◌≡◌, IfNone, IfSome, []};
ghost use Rattle.std.specs.Result.{result_err};
ghost use Rattle.tw_network.specs.Counts.{AreFewCounts, FitsAfter, IsCounted, ModelFits, IsModelCounted};
ghost use Rattle.tw_network.specs.TreeFaults.{is_few, tree_count_fault_of};
ghost use Rattle.tw_nested.specs.Tree.{tree_of, links_of, only_part};

use crate::limits::{MAX_COMPONENTS, MAX_COUPLED, MAX_INPUTS, MAX_LEVELS};
use crate::refused::NetworkRefused;
use tw_nested::{MAX_COUPLINGS, Nested, Part};

/// What was met so far.
#[derive(Clone, Copy)]
pub(crate) struct Counts {
    atoms: usize,
    coupled: usize,
    couplings: usize,
}

/// Refuses a tree of too many levels, parts or couplings, or too many inputs.
pub(crate) fn check_tree_counts<M>(root: &Nested<M>, inputs: usize) -> Result<(), NetworkRefused>
    ensures { result_err result ≡ tree_count_fault_of root.now inputs }
{
    if !is_few(root) || inputs > MAX_INPUTS {
        return Err(NetworkRefused::TooMany);
    }
    Ok(())
}

/// Whether a tree has no more than 16 levels, 1,024 atoms, 1,024 coupled parts and 8,192 couplings. It goes no
/// deeper than 16 levels, and stops at the first part that is one too many.
fn is_few<M>(root: &Nested<M>) -> bool
    ensures { result ≡ is_few (tree_of root.now) (links_of root.now) }
{
    let none = Counts {
        atoms: 0,
        coupled: 0,
        couplings: 0,
    };
    with_model(root, MAX_LEVELS, none).is_some()
}

/// What was met with this model's couplings and parts, where its parts may have this many levels.
#[cycle(counts)]
fn with_model<M>(nested: &Nested<M>, room: usize, before: Counts) -> Option<Counts>
    requires few { AreFewCounts before }
    ensures counted { IfSome result (λ after. IsModelCounted before after nested.now) }
    ensures fits { IfSome result (λ after. ModelFits room before nested.now) }
    ensures too_many { IfNone result (¬ ModelFits room before nested.now) }
{
    let mut counts = before;
    let couplings = nested.couplings.len();
    if couplings > MAX_COUPLINGS - counts.couplings {
        return None;
    }
    counts.couplings += couplings;
    for (_, part) in &nested.parts {
        counts = with_part(part, room, counts)?;
    }
    Some(counts)
}

/// What was met with this part, which may have this many levels with what is in it.
#[cycle(counts)]
fn with_part<M>(part: &Part<M>, room: usize, before: Counts) -> Option<Counts>
    requires few { AreFewCounts before }
    ensures counted { IfSome result (λ after. IsCounted before after (only_part [] part.now) 0) }
    ensures fits { IfSome result (λ after. FitsAfter room before (only_part [] part.now) 0) }
    ensures too_many { IfNone result (¬ FitsAfter room before (only_part [] part.now) 0) }
{
    if room == 0 {
        return None;
    }
    let mut counts = before;
    match part {
        Part::Atom(_) => {
            if counts.atoms == MAX_COMPONENTS {
                return None;
            }
            counts.atoms += 1;
            Some(counts)
        }
        Part::Coupled(inner) => {
            if counts.coupled == MAX_COUPLED {
                return None;
            }
            counts.coupled += 1;
            with_model(inner, room - 1, counts)
        }
    }
}
