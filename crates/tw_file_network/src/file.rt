//! A network file's bytes to the network that they mean.

ghost use Rattle.std.specs.Prelude.{◌≡◌, Ok, IfOk};
ghost use Rattle.serde_json.specs.View.{view};
ghost use Rattle.tw_file_network.specs.Answers.{FailsBy};
ghost use Rattle.tw_network.specs.Contents.{named};
ghost use Rattle.tw_file_network.specs.Draft.{draft_view};
ghost use Rattle.tw_file_network.specs.Meaning.{json_of, meaning_of, network_made, network_of};

use crate::components::components_made;
use crate::draft::Draft;
use crate::numbers::{Numbers, names_of};
use crate::refused::FileRefused;
use crate::shape::draft_of;
use serde_json::Value;
use std::alloc::Global;
use tw_any_model::AnyModel;
use tw_network::{Coupling, Input, Network};

/// The network that a file's bytes mean, a JSON text of format `tw-1`.
///
/// Components are numbered in the file's order, from 0. The first fault in this order is answered: the bytes
/// are not UTF-8, not JSON or nested deeper than 127 levels ([`FileRefused::NotJson`], 20); a member is
/// missing, unknown or of another type, or `format` or `model` is another text ([`FileRefused::BadShape`],
/// 21); for each component in order, a parameter of its model is out of range ([`FileRefused::Parameter`], 6
/// or 10, a hop's ports before its spread); then the faults of [`Network::new`] in its order
/// ([`FileRefused::Network`]), where a name that no component has is an unknown component (5) and a port
/// above 255 is a port above 15 (6). Want of memory ([`FileRefused::OutOfMemory`], 4) may come at any point
/// instead. After any of them nothing is left. Nothing is said of an object that has a member twice.
pub fn network_of_file(alloc: Global, bytes: &[u8]) -> Result<Network<AnyModel>, FileRefused>
    ensures network { IfOk result (λ n. meaning_of bytes.now ≡ Ok n) }
    ensures first_fault { FailsBy result (meaning_of bytes.now) }
{
    let value = json_of(alloc, bytes)?;
    let draft = draft_of(alloc, &value)?;
    network_of(alloc, &draft)
}

/// The JSON value that a file's bytes write.
///
/// Refused where they are not UTF-8, not JSON or nested deeper than 127 levels ([`FileRefused::NotJson`], 20), or for want
/// of memory ([`FileRefused::OutOfMemory`], 4).
pub fn json_of(alloc: Global, bytes: &[u8]) -> Result<Value, FileRefused>
    ensures value { IfOk result (λ v. json_of bytes.now ≡ Ok (view v)) }
    ensures first_fault { FailsBy result (json_of bytes.now) }
{
    match Value::from_slice(alloc, bytes) {
        Ok(value) => Ok(value),
        Err(error) if error.is_memory() => Err(FileRefused::OutOfMemory),
        Err(_) => Err(FileRefused::NotJson),
    }
}

/// The network that a draft means.
pub(crate) fn network_of(alloc: Global, draft: &Draft) -> Result<Network<AnyModel>, FileRefused>
    ensures ok { IfOk result (λ n. network_of (draft_view draft.now) ≡ Ok n) }
    ensures err { FailsBy result (network_of (draft_view draft.now)) }
{
    let drafts = draft.components.as_slice();
    let components = components_made(alloc, drafts)?;
    let names = names_of(alloc, drafts)?;
    let numbers = Numbers::new(alloc, names.as_slice())?;
    let couplings = numbers.couplings(alloc, draft.couplings.as_slice())?;
    let inputs = numbers.inputs(alloc, draft.inputs.as_slice())?;
    network_made(alloc, components, couplings, inputs, draft.micro_limit)
}

/// The network of these parts, or its first fault.
fn network_made(
    alloc: Global,
    components: Vec<(String, AnyModel)>,
    couplings: Vec<Coupling>,
    inputs: Vec<Input>,
    micro_limit: u64,
) -> Result<Network<AnyModel>, FileRefused>
    ensures ok { IfOk result
        (λ n. network_made (named components.items) couplings.items inputs.items micro_limit
        ≡ Ok n) }
    ensures err { FailsBy result (network_made
        (named components.items) couplings.items inputs.items micro_limit) }
{
    match Network::new(alloc, components, couplings, inputs, micro_limit) {
        Ok(network) => Ok(network),
        Err(fault) => Err(FileRefused::from(fault)),
    }
}
