//! What the models of a whole network are called, their figures and their observations.

ghost use Rattle.std.specs.Prelude.{◌≡◌, IfOk, map, slice_index_or};
ghost use Rattle.serde_json.specs.Data.{null};
ghost use Rattle.serde_json.specs.View.{view, items_view};
ghost use Rattle.tw_machine_file.specs.Seen.{machine};
ghost use Rattle.tw_figures.specs.Labelled.{label};
ghost use Rattle.tw_figure_names.specs.Said.{label_said, labels_said, machine_label};

use crate::atoms::atoms_of;
use crate::labels::labels_of;
use crate::machines::{machines_of, told_named};
use serde_json::Value;
use std::alloc::{AllocError, Global};
use tw_any_model::AnyModel;
use tw_figures::Labels;
use tw_file_members::{items_in, text_in};
use tw_machine_file::FileMachine;
use tw_network::Network;

/// What the models of a network's components are called, in order, and their figures. Those of the five models are what
/// [`labels_of`] gives. Those of a machine are read in the JSON value of the network's file: what the component says at
/// `model`, and for each entry of the machine's `words` its text, each run of blanks as one; of an array register each
/// cell, `name[0]` and on. This ends before the first entry that is a queue; from there on there is only one figure more,
/// how many values all its queues in `words` have together, called by their texts, joined by ` + `. An observation in
/// `words` is no figure: those before the first queue stand beside the figures, each with the place of its first word.
/// Where the file's machines are refused, or none has the name, there are no figures; in the file of that network this
/// cannot be.
///
/// Refused for want of memory (4).
pub fn labels_in(
    alloc: Global,
    file: &Value,
    network: &Network<AnyModel>,
) -> Result<Vec<Labels>, AllocError>
    ensures { IfOk result
        (λ labels. map label labels.items ≡ labels_said (view file.now) network.now.models) }
{
    let machines = machines_of(alloc, file)?;
    let values = items_in(file, "models");
    let atoms = atoms_of(alloc, file)?;
    let mut labels = Vec::new(alloc);
    for component in 0..network.len() {
        let model = network.model(component);
        let label = label_at(alloc, &machines, values, model, &atoms, component)?;
        labels.push(label)?;
    }
    Ok(labels)
}

/// What the model of a component is called, and its figures, where the file says this of the component.
fn label_said(
    alloc: Global,
    machines: &[FileMachine],
    values: &[Value],
    model: &AnyModel,
    said: &Value,
) -> Result<Labels, AllocError>
    ensures { IfOk result (λ labels. label labels ≡ label_said (map machine machines.now)
        (items_view values.now) model.now (view said.now)) }
{
    match model {
        AnyModel::BuiltIn(model) => labels_of(alloc, model),
        AnyModel::Machine(_) => label_of_machine(alloc, machines, values, text_in(said, "model")),
    }
}

/// The same of the component of a number among those that the file says.
fn label_at(
    alloc: Global,
    machines: &[FileMachine],
    values: &[Value],
    model: &AnyModel,
    atoms: &[&Value],
    component: usize,
) -> Result<Labels, AllocError>
    ensures { IfOk result (λ labels. label labels
        ≡ label_said (map machine machines.now) (items_view values.now) model.now
        (slice_index_or (map (λ a. view a.now) atoms.now) component null)) }
{
    match atoms.get(component) {
        Some(said) => label_said(alloc, machines, values, model, said),
        None => label_said(alloc, machines, values, model, &Value::Null),
    }
}

/// What a component is called that names this machine, its figures and its observations.
fn label_of_machine(
    alloc: Global,
    machines: &[FileMachine],
    values: &[Value],
    name: &str,
) -> Result<Labels, AllocError>
    ensures { IfOk result (λ labels. label labels ≡ machine_label (map machine machines.now)
        (items_view values.now) name.now) }
{
    let model = String::from_str(alloc, name)?;
    let told = told_named(alloc, machines, values, name)?;
    Ok(Labels {
        model,
        figures: told.figures,
        observations: told.observations,
    })
}
