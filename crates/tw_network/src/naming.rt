//! The names of a network's components, each found by its text.

ghost use Rattle.std.specs.Prelude.{◌≡◌, ◌≢◌, ◌++◌, ◌∷◌, [], false, IfOk, OnOk, map, string_bytes};
ghost use Rattle.std.specs.List.{AllPairs};
ghost use Rattle.tw_network.specs.Faults.{has_name};

use indexmap::IndexSet;
use std::alloc::{AllocError, AllocFailed, Global};

/// The set of these names, no two of which are the same, in their order.
pub(crate) fn name_set(alloc: Global, names: Vec<String>) -> Result<IndexSet<String>, AllocError>
    requires distinct { AllPairs (λ a b. a ≢ b) (map string_bytes names.items) }
    ensures { IfOk result (λ set. map string_bytes set.keys ≡ map string_bytes names.items) }
{
    let mut set = IndexSet::new(alloc);
    for name in names {
        add_name(&mut set, name)?;
    }
    Ok(set)
}

/// Adds a name that is not among them.
#[tactic(auto, using(crate::proofs::Names::has_name_of_keys))]
fn add_name(set: &mut IndexSet<String>, name: String) -> Result<(), AllocFailed<String>>
    requires new { has_name (map string_bytes set.old.keys) (string_bytes name) ≡ false }
    ensures { OnOk result (set.new.keys ≡ set.old.keys ++ name ∷ []) }
{
    set.insert_full(name)?;
    Ok(())
}
