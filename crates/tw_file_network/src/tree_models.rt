//! The parts of a tree with their models.

ghost use Rattle.std.specs.Prelude.{◌≡◌, ◌+◌, ◌≤◌, ℕ, List, Ok, Err, IfOk, length, min};
ghost use Rattle.std.specs.Option.{option_or};
ghost use Rattle.std.specs.Result.{result_err};
ghost use Rattle.tw_file_network.specs.Answers.{FailsAs, FailsBy};
ghost use Rattle.tw_nested.specs.Tree.{Parts, models_in, part_view, parts_of};
ghost use Rattle.tw_file_network.specs.Components.{after};
ghost use Rattle.tw_file_network.specs.TreeShape.{tree_made};

use crate::draft::AnyDraft;
use crate::refused::FileRefused;
use std::alloc::Global;
use tw_any_model::AnyModel;
use tw_network::{Nested, Part};

/// The tree, where all its models' parameters are in range.
#[cycle(made)]
pub(crate) fn tree_made(
    alloc: Global,
    draft: &Nested<AnyDraft<'_>>,
) -> Result<Nested<AnyModel>, FileRefused>
    ensures ok { IfOk result
        (λ n. tree_made (parts_of draft.now.parts.items) ≡ Ok (parts_of n.parts.items)) }
    ensures couplings { IfOk result (λ n. n.couplings.items ≡ draft.now.couplings.items) }
    ensures err { FailsBy result (tree_made (parts_of draft.now.parts.items)) }
{
    let mut parts = Vec::with_capacity(alloc, draft.parts.len())?;
    for (name, part) in &draft.parts {
        let part = part_made(alloc, part)?;
        let name = String::from_str(alloc, name.as_str())?;
        parts.push((name, part))?;
    }
    let couplings = draft.couplings.as_slice().to_vec(alloc)?;
    Ok(Nested { parts, couplings })
}

/// The part, whatever comes after it.
#[cycle(made)]
fn part_made(alloc: Global, part: &Part<AnyDraft<'_>>) -> Result<Part<AnyModel>, FileRefused>
    ensures ok { IfOk result
        (λ p. (name : List ℕ) (rest : Parts AnyDraft) → tree_made (part_view part.now name rest)
        ≡ after (λ more. Ok (part_view p name more)) (tree_made rest)) }
    ensures err { FailsAs result (λ e. (name : List ℕ) (rest : Parts AnyDraft)
        → tree_made (part_view part.now name rest) ≡ Err e) }
{
    match part {
        Part::Atom(draft) => Ok(Part::Atom(draft.model(alloc)?)),
        Part::Coupled(inner) => Ok(Part::Coupled(tree_made(alloc, inner)?)),
    }
}

/// The first parameter that is out of range in a tree, whose models are not made.
#[cycle(faults)]
pub(crate) fn tree_fault(draft: &Nested<AnyDraft<'_>>) -> Option<FileRefused>
    ensures { result ≡ result_err (tree_made (parts_of draft.now.parts.items)) }
{
    for (_, part) in &draft.parts {
        if let Some(fault) = part_fault(part) {
            return Some(fault);
        }
    }
    None
}

/// The same in a part, whatever comes after it.
#[cycle(faults)]
fn part_fault(part: &Part<AnyDraft<'_>>) -> Option<FileRefused>
    ensures { (name : List ℕ) (rest : Parts AnyDraft)
        → result_err (tree_made (part_view part.now name rest))
        ≡ option_or result (result_err (tree_made rest)) }
{
    match part {
        Part::Atom(draft) => draft.fault(),
        Part::Coupled(inner) => tree_fault(inner),
    }
}

/// How many atoms a tree has, counted to 1,025, one past what is allowed.
#[cycle(atoms)]
pub(crate) fn atoms(draft: &Nested<AnyDraft<'_>>) -> usize
    ensures value { result ≡ min (length (models_in (parts_of draft.now.parts.items))) 1025 }
    ensures small { result ≤ 1025 }
{
    let mut count = 0;
    for (_, part) in &draft.parts {
        count = (count + part_atoms(part)).min(1025);
    }
    count
}

/// The same of a part, whatever comes after it.
#[cycle(atoms)]
fn part_atoms(part: &Part<AnyDraft<'_>>) -> usize
    ensures value { (name : List ℕ) (rest : Parts AnyDraft)
        → min (length (models_in (part_view part.now name rest))) 1025
        ≡ min (result + length (models_in rest)) 1025 }
    ensures small { result ≤ 1025 }
{
    match part {
        Part::Atom(_) => 1,
        Part::Coupled(inner) => atoms(inner),
    }
}
