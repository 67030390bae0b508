//! The components of a file that are no coupled models, in the order of their numbers.

ghost use Rattle.std.specs.Prelude.{◌≡◌, ◌++◌, OnOk, IfOk, codes, is_some, map};
ghost use Rattle.serde_json.specs.Find.{get};
ghost use Rattle.serde_json.specs.View.{view, items_view};
ghost use Rattle.tw_figure_names.specs.Said.{atom_or_within, atoms_of, atoms_within, of_all};

use serde_json::Value;
use std::alloc::{AllocError, Global};
use tw_file_members::items_in;

/// More levels than a JSON text can have: a level of components takes two of its 127.
const ROOM: usize = 64;

/// The components of a file, depth first.
pub(crate) fn atoms_of<'a>(alloc: Global, file: &'a Value) -> Result<Vec<&'a Value>, AllocError>
    ensures { IfOk result (λ atoms. map (λ a. view a.now) atoms.items ≡ atoms_of (view file.now)) }
{
    let mut atoms = Vec::new(alloc);
    add_within(&mut atoms, file, ROOM)?;
    Ok(atoms)
}

/// Adds the components of a model, depth first.
#[cycle(walk)]
fn add_within<'a>(
    atoms: &mut Vec<&'a Value>,
    model: &'a Value,
    room: usize,
) -> Result<(), AllocError>
    ensures { OnOk result (map (λ a. view a.now) atoms.new.items
        ≡ map (λ a. view a.now) atoms.old.items ++ atoms_within room (view model.now)) }
{
    if room == 0 {
        return Ok(());
    }
    add_all(atoms, items_in(model, "components"), room - 1)
}

/// Adds components, or those in them.
#[cycle(walk)]
fn add_all<'a>(
    atoms: &mut Vec<&'a Value>,
    components: &'a [Value],
    room: usize,
) -> Result<(), AllocError>
    ensures { OnOk result
        (map (λ a. view a.now) atoms.new.items ≡ map (λ a. view a.now) atoms.old.items
        ++ of_all (atom_or_within room) (items_view components.now)) }
{
    for component in components {
        add_component(atoms, component, room)?;
    }
    Ok(())
}

/// Adds a component, or those in it.
#[cycle(walk)]
fn add_component<'a>(
    atoms: &mut Vec<&'a Value>,
    component: &'a Value,
    room: usize,
) -> Result<(), AllocError>
    ensures { OnOk result (map (λ a. view a.now) atoms.new.items
        ≡ map (λ a. view a.now) atoms.old.items ++ atom_or_within room (view component.now)) }
{
    if component.get("components").is_some() {
        return add_within(atoms, component, room);
    }
    atoms.push(component)?;
    Ok(())
}
