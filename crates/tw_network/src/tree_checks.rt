//! The faults of a tree of coupled models: its parts' and its couplings', a model before the models in it.

ghost use Rattle.std.specs.Prelude.{◌≡◌, ◌++◌, ◌∷◌, [], IfOk, IsErrOf, OnOk, None, Some, length, string_bytes};
ghost use Rattle.std.specs.Result.{result_err};
ghost use Rattle.tw_nested.specs.Tree.{parts_of, tree_of, only_part};
ghost use Rattle.tw_network.specs.Faults.{limit_fault, FailsBy};
ghost use Rattle.tw_network.specs.TreeFaults.{inner_fault, is_end, link_end_fault, link_fault, links_fault, part_name_fault, parts_fault, same_end, start_fault, own_fault_of, models_fault_of, part_fault_of, tree_fault_of, tree_count_fault_of};
ghost use Rattle.tw_network.specs.Contents.{texts_of};
ghost use Rattle.tw_network.specs.declared.refused.NetworkRefused.TheVariants.{TooMany, BadLimit};

use crate::checks::{check_name, checked_limit, has_start_in_time};
use crate::counts::check_tree_counts;
use crate::limits::MAX_PORT;
use crate::refused::NetworkRefused;
use crate::wiring::Input;
use indexmap::IndexSet;
use std::alloc::Global;
use tw_atomic::Atomic;
use tw_nested::{End, Link, Nested, Part};

/// The greatest microstep, where it is one and nothing of the tree is at fault, nor are its inputs too many.
pub(crate) fn checked_tree<M: Atomic>(
    alloc: Global,
    root: &Nested<M>,
    inputs: &[Input],
    micro_limit: u64,
) -> Result<u32, NetworkRefused>
    ensures same { IfOk result (λ limit. limit ≡ micro_limit) }
    ensures ok { OnOk result (tree_fault_of M.meaning root.now inputs.now micro_limit ≡ None) }
    ensures err { FailsBy result (tree_fault_of M.meaning root.now inputs.now micro_limit) }
    ensures counts { tree_count_fault_of root.now (length inputs.now) ≡ Some TooMany
        → IsErrOf result TooMany }
    ensures limit { tree_count_fault_of root.now (length inputs.now) ≡ None
        → limit_fault micro_limit ≡ Some BadLimit → IsErrOf result BadLimit }
{
    check_tree_counts(root, inputs.len())?;
    let micro_limit = checked_limit(micro_limit)?;
    check_models(alloc, root)?;
    Ok(micro_limit)
}

/// Refuses a tree in which a model is at fault.
fn check_models<M: Atomic>(alloc: Global, root: &Nested<M>) -> Result<(), NetworkRefused>
    ensures ok { OnOk result (models_fault_of M.meaning root.now ≡ None) }
    ensures err { FailsBy result (models_fault_of M.meaning root.now) }
{
    check_own(alloc, true, root)?;
    check_inner(alloc, root)
}

/// Refuses a model among or in whose parts a model is at fault.
#[cycle(models)]
fn check_inner<M: Atomic>(alloc: Global, nested: &Nested<M>) -> Result<(), NetworkRefused>
    ensures ok { OnOk result (inner_fault M.meaning (tree_of nested.now) ≡ None) }
    ensures err { FailsBy result (inner_fault M.meaning (tree_of nested.now)) }
{
    for (_, part) in &nested.parts {
        check_part(alloc, part)?;
    }
    Ok(())
}

/// Refuses a part that is a model at fault, or has one in it.
#[cycle(models)]
fn check_part<M: Atomic>(alloc: Global, part: &Part<M>) -> Result<(), NetworkRefused>
    ensures ok { OnOk result (inner_fault M.meaning (only_part [] part.now) ≡ None) }
    ensures err { FailsBy result (inner_fault M.meaning (only_part [] part.now)) }
{
    match part {
        Part::Atom(_) => Ok(()),
        Part::Coupled(inner) => {
            check_own(alloc, false, inner)?;
            check_inner(alloc, inner)
        }
    }
}

/// Refuses a model of which a part or a coupling is at fault.
fn check_own<M: Atomic>(
    alloc: Global,
    is_root: bool,
    nested: &Nested<M>,
) -> Result<(), NetworkRefused>
    ensures ok { OnOk result (own_fault_of M.meaning is_root nested.now ≡ None) }
    ensures err { FailsBy result (own_fault_of M.meaning is_root nested.now) }
{
    check_parts(alloc, nested.parts.as_slice())?;
    check_links(
        alloc,
        is_root,
        nested.parts.len(),
        nested.couplings.as_slice(),
    )
}

/// Refuses parts of which one is at fault, alone or beside those before it.
fn check_parts<M: Atomic>(alloc: Global, parts: &[(String, Part<M>)]) -> Result<(), NetworkRefused>
    ensures ok { OnOk result (parts_fault M.meaning [] (parts_of parts.now) ≡ None) }
    ensures err { FailsBy result (parts_fault M.meaning [] (parts_of parts.now)) }
{
    let mut names = IndexSet::new(alloc);
    for (name, part) in parts {
        take_part(alloc, &mut names, name.as_str(), part)?;
    }
    Ok(())
}

/// Adds the name of a part that is not at fault.
fn take_part<M: Atomic>(
    alloc: Global,
    names: &mut IndexSet<String>,
    name: &str,
    part: &Part<M>,
) -> Result<(), NetworkRefused>
    ensures names { OnOk result
        (texts_of names.new.keys ≡ texts_of names.old.keys ++ name.now ∷ []) }
    ensures ok { OnOk result (part_fault_of M.meaning names.old.keys name.now part.now ≡ None) }
    ensures err { FailsBy result (part_fault_of M.meaning names.old.keys name.now part.now) }
{
    take_part_name(names, String::from_str(alloc, name)?)?;
    match part {
        Part::Atom(model) => check_start(alloc, model),
        Part::Coupled(_) => Ok(()),
    }
}

/// Adds the name of a part that is not at fault.
#[tactic(auto, using(crate::proofs::Names::has_name_of_keys))]
fn take_part_name(names: &mut IndexSet<String>, name: String) -> Result<(), NetworkRefused>
    ensures names { OnOk result (names.new.keys ≡ names.old.keys ++ name ∷ []) }
    ensures ok { OnOk result
        (part_name_fault (texts_of names.old.keys) (string_bytes name) ≡ None) }
    ensures err { FailsBy result (part_name_fault (texts_of names.old.keys) (string_bytes name)) }
{
    check_name(name.as_str())?;
    let (_, is_new) = names.insert_full(name)?;
    if !is_new {
        return Err(NetworkRefused::DuplicateName);
    }
    Ok(())
}

/// Refuses a model whose start state has a time advance above the last tick.
fn check_start<M: Atomic>(alloc: Global, model: &M) -> Result<(), NetworkRefused>
    ensures ok { OnOk result (start_fault (M.meaning model.now) ≡ None) }
    ensures err { FailsBy result (start_fault (M.meaning model.now)) }
{
    if !has_start_in_time(alloc, model)? {
        return Err(NetworkRefused::BadTick);
    }
    Ok(())
}

/// Refuses couplings of which one is at fault, alone or beside those before it.
fn check_links(
    alloc: Global,
    is_root: bool,
    count: usize,
    links: &[Link],
) -> Result<(), NetworkRefused>
    ensures ok { OnOk result (links_fault is_root count links.now ≡ None) }
    ensures err { FailsBy result (links_fault is_root count links.now) }
{
    let mut seen = IndexSet::new(alloc);
    for link in links {
        take_link(&mut seen, is_root, count, *link)?;
    }
    Ok(())
}

/// Adds a coupling that is not at fault.
fn take_link(
    seen: &mut IndexSet<Link>,
    is_root: bool,
    count: usize,
    link: Link,
) -> Result<(), NetworkRefused>
    ensures seen { OnOk result (seen.new.keys ≡ seen.old.keys ++ link ∷ []) }
    ensures ok { OnOk result (link_fault is_root count seen.old.keys link ≡ None) }
    ensures err { FailsBy result (link_fault is_root count seen.old.keys link) }
{
    check_ends(is_root, count, link)?;
    let (_, is_new) = seen.insert_full(link)?;
    if !is_new {
        return Err(NetworkRefused::DuplicateRoute);
    }
    Ok(())
}

/// Refuses a coupling that is at fault alone.
fn check_ends(is_root: bool, count: usize, link: Link) -> Result<(), NetworkRefused>
    ensures { result_err result ≡ link_end_fault is_root count link }
{
    let (source, from, destination, to) = link;
    if !has_end(is_root, count, source) || !has_end(is_root, count, destination) {
        return Err(NetworkRefused::UnknownComponent);
    }
    if from > MAX_PORT || to > MAX_PORT {
        return Err(NetworkRefused::BadPort);
    }
    if are_same(source, destination) {
        return Err(NetworkRefused::SelfCoupling);
    }
    Ok(())
}

/// Whether a model of this many parts has this end; the root has no ports of its own.
fn has_end(is_root: bool, count: usize, end: End) -> bool
    ensures { result ≡ is_end is_root count end }
{
    match end {
        End::Here => !is_root,
        End::Part(place) => place < count,
    }
}

fn are_same(one: End, other: End) -> bool
    ensures { result ≡ same_end one other }
{
    match one {
        End::Here => match other {
            End::Here => true,
            End::Part(_) => false,
        },
        End::Part(i) => match other {
            End::Here => false,
            End::Part(j) => i == j,
        },
    }
}
