//! Network files of any format to the networks that they mean.

ghost use Rattle.std.specs.Prelude.{◌≡◌, ◌<◌, ℕ, List, Some, Err, IfOk, length, map};
ghost use Rattle.serde_json.specs.View.{view};
ghost use Rattle.tw_file_network.specs.Answers.{FailsAs};
ghost use Rattle.tw_nested.specs.Tree.{models_in, parts_of};
ghost use Rattle.tw_file_network.specs.Draft.{inputs_view};
ghost use Rattle.tw_file_network.specs.Numbers.{number_of, numbered_input};
ghost use Rattle.tw_file_network.specs.Meaning.{meaning_of};
ghost use Rattle.tw_file_network.specs.OneMeaning.{MeansOne};
ghost use Rattle.tw_file_network.specs.TreeDraft.{tree_view};
ghost use Rattle.tw_file_network.specs.TreeShape.{TreeFile};
ghost use Rattle.tw_file_network.specs.declared.refused.FileRefused.TheVariants.{BadShape};
ghost use Rattle.tw_file_network.specs.TreeMeaning.{
  IsFault,
  IsFaultOfValue,
  IsMeaning,
  IsMeaningOfValue,
  IsNetworkOfTree,
  IsRefusedTree,
  IsTreeFileFault,
  IsTreeMeaning,
  tree_in,
};

use crate::draft::{InputDraft, TreeDraft};
use crate::file::{json_of, network_of};
use crate::numbers::port_of;
use crate::refused::FileRefused;
use crate::shape::draft_of;
use crate::tree_models::{atoms, tree_fault, tree_made};
use crate::tree_shape::{
    has_machines, is_tree, machines_declared, machines_draft_with, tree_draft_of,
};
use serde_json::Value;
use std::alloc::{AllocError, Global};
use tw_any_model::AnyModel;
use tw_network::{Input, MAX_COMPONENTS, MAX_INPUTS, Nested, Network, NetworkRefused};

/// The network that a file's bytes mean, a JSON text of format `tw-1`, `tw-2` or `tw-3`.
///
/// A file of format `tw-1` means what [`network_of_file`](crate::network_of_file) says, with its faults. One of
/// format `tw-2` says a tree of coupled models (Chow and Zeigler 1994) and means the flat network of it: its
/// components are the tree's atoms, numbered from 0, depth first, in the order of the file; the name of each is
/// the names on its way from the root, joined by `.`. The first fault in this order is answered: 20 and 21 as
/// there; for each atom in order, a parameter of its model is out of range (6 or 10, a hop's ports before its
/// spread); then the faults of [`Network::nested`] in its order, where a coupling's name that no part has, and an
/// input's that no atom has, is an unknown component (5), and a port above 255 is a port above 15 (6). Want of
/// memory (4) may come at any point instead. After any of them nothing is left. Nothing is said of an object that
/// has a member twice.
///
/// One of format `tw-3` says the same, but that it declares machines in its member `models`, and a component may name
/// one in place of one of the five models: what is wrong with a machine, or with what a component gives for its
/// parameters, is 21 (reverse computation by derivation: Carothers, Perumalla and Fujimoto 1999). So are more than
/// 1,048,576 numbers in the tables of all machines, of each once, and in the lists of all components.
pub fn network_of_any_file(alloc: Global, bytes: &[u8]) -> Result<Network<AnyModel>, FileRefused>
    ensures network { IfOk result (IsMeaning bytes.now) }
    ensures first_fault { FailsAs result (IsFault bytes.now) }
{
    let value = json_of(alloc, bytes)?;
    network_of_value(alloc, &value)
}

/// The network that the JSON value of a file means, for a caller that reads more of the value than the network.
///
/// With the value that [`json_of`](crate::json_of) reads in a file's bytes it answers what [`network_of_any_file`] answers
/// for them. Its faults are those there but for 20.
pub fn network_of_value(alloc: Global, value: &Value) -> Result<Network<AnyModel>, FileRefused>
    ensures network { IfOk result (IsMeaningOfValue (view value.now)) }
    ensures first_fault { FailsAs result (IsFaultOfValue (view value.now)) }
{
    if is_tree(value) {
        let tree = tree_draft_of(alloc, value)?;
        return network_of_tree(alloc, &tree);
    }
    if has_machines(value) {
        let machines = machines_declared(alloc, value)?;
        let tree = machines_draft_with(alloc, value, machines.as_slice())?;
        return network_of_tree(alloc, &tree);
    }
    let draft = draft_of(alloc, value)?;
    network_of(alloc, &draft)
}

/// No file is of both formats: for format `tw-1`, one that says a tree has another shape. It does nothing.
pub fn formats_law()
    ensures { (bytes : List ℕ) (file : TreeFile) → tree_in bytes ≡ Some file
        → meaning_of bytes ≡ Err BadShape }
{}

/// The bytes of a file mean at most one network, but for the order of the couplings of a tree, and have at most one first
/// fault; never both. It does nothing.
pub fn meaning_law()
    ensures { (bytes : List ℕ) → MeansOne bytes }
{}

/// The first fault of a tree of too many atoms.
fn fault_of_many(tree: &TreeDraft) -> FileRefused
    requires { 1024 < length (models_in (parts_of tree.now.root.parts.items)) }
    ensures { IsTreeFileFault (tree_view tree.now) result }
{
    match tree_fault(&tree.root) {
        Some(fault) => fault,
        None => FileRefused::Network(NetworkRefused::TooMany),
    }
}

/// The network that a tree means. No model of too many is made, since a machine's program may be large. Without its
/// inputs it is made first: that network finds atoms by name, and it is no larger than a network may be.
fn network_of_tree(alloc: Global, tree: &TreeDraft) -> Result<Network<AnyModel>, FileRefused>
    ensures ok { IfOk result (IsTreeMeaning (tree_view tree.now)) }
    ensures err { FailsAs result (IsTreeFileFault (tree_view tree.now)) }
{
    if atoms(&tree.root) > MAX_COMPONENTS {
        return Err(fault_of_many(tree));
    }
    let root = tree_made(alloc, &tree.root)?;
    if tree.inputs.len() > MAX_INPUTS {
        return Err(FileRefused::Network(NetworkRefused::TooMany));
    }
    let named = nested(alloc, root, Vec::new(alloc), tree.micro_limit)?;
    let inputs = inputs_named(alloc, &named, tree.inputs.as_slice())?;
    drop(named);
    let root = tree_made(alloc, &tree.root)?;
    nested(alloc, root, inputs, tree.micro_limit)
}

/// The network of a tree with these inputs, or its first fault.
fn nested(
    alloc: Global,
    root: Nested<AnyModel>,
    inputs: Vec<Input>,
    micro_limit: u64,
) -> Result<Network<AnyModel>, FileRefused>
    ensures ok { IfOk result (IsNetworkOfTree
        (parts_of root.parts.items) root.couplings.items inputs.items micro_limit) }
    ensures err { FailsAs result (IsRefusedTree
        (parts_of root.parts.items) root.couplings.items inputs.items micro_limit) }
{
    match Network::nested(alloc, root, inputs, micro_limit) {
        Ok(network) => Ok(network),
        Err(fault) => Err(FileRefused::from(fault)),
    }
}

/// Inputs by the numbers of the components that they name.
fn inputs_named(
    alloc: Global,
    network: &Network<AnyModel>,
    drafts: &[InputDraft],
) -> Result<Vec<Input>, AllocError>
    ensures { IfOk result (λ v. v.items
        ≡ map (numbered_input (number_of network.now.names)) (inputs_view drafts.now)) }
{
    let mut inputs = Vec::with_capacity(alloc, drafts.len())?;
    for draft in drafts {
        let component = number_in(network, draft.to);
        inputs.push((draft.tick, component, port_of(draft.port), draft.value))?;
    }
    Ok(inputs)
}

/// The number of the component that has the name, or one that no component has.
fn number_in(network: &Network<AnyModel>, name: &str) -> usize
    ensures { result ≡ number_of network.now.names name.now }
{
    network.facts();
    match network.find(name) {
        Some(component) => component,
        None => network.len(),
    }
}
