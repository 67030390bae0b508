//! What a network file's JSON value says: exactly its members, each of its type.

ghost use Rattle.std.specs.Prelude.{◌≡◌, [], Some, Ok, IfOk, map, option_map};
ghost use Rattle.serde_json.specs.View.{view, items_view};
ghost use Rattle.tw_file_network.specs.Answers.{FailsBy, HasNoShape};
ghost use Rattle.tw_machine_file.specs.Seen.{machine};
ghost use Rattle.tw_file_network.specs.Draft.{
  component_view,
  components_view,
  coupling_view,
  couplings_view,
  draft_view,
  input_view,
  inputs_view,
};
ghost use Rattle.tw_file_network.specs.Meaning.{shape_of};
ghost use Rattle.tw_file_network.specs.Shape.{
  all_read,
  component_of,
  coupling_of,
  gen_of,
  hop_of,
  input_of,
  model_named,
  queue_of,
  relay_of,
};

use crate::draft::{ComponentDraft, CouplingDraft, Draft, InputDraft, ModelDraft};
use crate::machines::model_in;
use crate::refused::FileRefused;
use serde_json::Value;
use std::alloc::Global;
use tw_file_members::{count_at, has_items, has_members, is_file, text_at, value_at};
use tw_machine_file::FileMachine;
use tw_models::{GEN, HOP, QUEUE, RELAY, TALLY};

/// What the file's value says, where it has the shape of a network file.
pub(crate) fn draft_of<'a>(alloc: Global, value: &'a Value) -> Result<Draft<'a>, FileRefused>
    ensures ok { IfOk result (λ d. shape_of (view value.now) ≡ Ok (draft_view d)) }
    ensures err { FailsBy result (shape_of (view value.now)) }
{
    if !is_file(value, 5, "tw-1") {
        return Err(FileRefused::BadShape);
    }
    let Some(micro_limit) = count_at(value, "micro_limit") else {
        return Err(FileRefused::BadShape);
    };
    let Some(components) = value.get("components").and_then(Value::as_array) else {
        return Err(FileRefused::BadShape);
    };
    let components = components_of(alloc, components.as_slice())?;
    let Some(couplings) = value.get("couplings").and_then(Value::as_array) else {
        return Err(FileRefused::BadShape);
    };
    let couplings = couplings_of(alloc, couplings.as_slice())?;
    let Some(inputs) = value.get("inputs").and_then(Value::as_array) else {
        return Err(FileRefused::BadShape);
    };
    let inputs = inputs_of(alloc, inputs.as_slice())?;
    Ok(Draft {
        micro_limit,
        components,
        couplings,
        inputs,
    })
}

fn components_of<'a>(
    alloc: Global,
    values: &'a [Value],
) -> Result<Vec<ComponentDraft<'a>>, FileRefused>
    ensures ok { IfOk result
        (λ v. all_read (component_of []) (items_view values.now) ≡ Some (components_view v.items)) }
    ensures err { HasNoShape result (all_read (component_of []) (items_view values.now)) }
{
    let mut components = Vec::new(alloc);
    for value in values {
        components.push(component_of(alloc, &[], value)?)?;
    }
    Ok(components)
}

pub(crate) fn couplings_of<'a>(
    alloc: Global,
    values: &'a [Value],
) -> Result<Vec<CouplingDraft<'a>>, FileRefused>
    ensures ok { IfOk result
        (λ v. all_read coupling_of (items_view values.now) ≡ Some (couplings_view v.items)) }
    ensures err { HasNoShape result (all_read coupling_of (items_view values.now)) }
{
    let mut couplings = Vec::new(alloc);
    for value in values {
        let Some(coupling) = coupling_of(value) else {
            return Err(FileRefused::BadShape);
        };
        couplings.push(coupling)?;
    }
    Ok(couplings)
}

pub(crate) fn inputs_of<'a>(
    alloc: Global,
    values: &'a [Value],
) -> Result<Vec<InputDraft<'a>>, FileRefused>
    ensures ok { IfOk result
        (λ v. all_read input_of (items_view values.now) ≡ Some (inputs_view v.items)) }
    ensures err { HasNoShape result (all_read input_of (items_view values.now)) }
{
    let mut inputs = Vec::new(alloc);
    for value in values {
        let Some(input) = input_of(value) else {
            return Err(FileRefused::BadShape);
        };
        inputs.push(input)?;
    }
    Ok(inputs)
}

/// A component, where these machines may be named.
pub(crate) fn component_of<'a>(
    alloc: Global,
    machines: &'a [FileMachine],
    value: &'a Value,
) -> Result<ComponentDraft<'a>, FileRefused>
    ensures ok { IfOk result
        (λ c. component_of (map machine machines.now) (view value.now) ≡ Some (component_view c)) }
    ensures err { HasNoShape result (component_of (map machine machines.now) (view value.now)) }
{
    let Some(name) = text_at(value, "name") else {
        return Err(FileRefused::BadShape);
    };
    let Some(model) = text_at(value, "model") else {
        return Err(FileRefused::BadShape);
    };
    let model = model_in(alloc, machines, value, model)?;
    Ok(ComponentDraft { name, model })
}

pub(crate) fn model_named(name: &str, value: &Value) -> Option<ModelDraft>
    ensures { result ≡ model_named name.now (view value.now) }
{
    if name == GEN {
        return gen_of(value);
    }
    if name == TALLY {
        return has_members(value, 2).then_some(ModelDraft::Tally);
    }
    if name == RELAY {
        return relay_of(value);
    }
    if name == QUEUE {
        return queue_of(value);
    }
    if name == HOP {
        return hop_of(value);
    }
    None
}

fn gen_of(value: &Value) -> Option<ModelDraft>
    ensures { result ≡ gen_of (view value.now) }
{
    if !has_members(value, 4) {
        return None;
    }
    let period = count_at(value, "period")?;
    let value = value_at(value, "value")?;
    Some(ModelDraft::Gen { period, value })
}

fn relay_of(value: &Value) -> Option<ModelDraft>
    ensures { result ≡ relay_of (view value.now) }
{
    if !has_members(value, 3) {
        return None;
    }
    let delay = count_at(value, "delay")?;
    Some(ModelDraft::Relay { delay })
}

fn queue_of(value: &Value) -> Option<ModelDraft>
    ensures { result ≡ queue_of (view value.now) }
{
    if !has_members(value, 3) {
        return None;
    }
    let service = count_at(value, "service")?;
    Some(ModelDraft::Queue { service })
}

fn hop_of(value: &Value) -> Option<ModelDraft>
    ensures { result ≡ hop_of (view value.now) }
{
    if !has_members(value, 5) {
        return None;
    }
    let seed = count_at(value, "seed")?;
    let ports = count_at(value, "ports")?;
    let spread = count_at(value, "spread")?;
    Some(ModelDraft::Hop {
        seed,
        ports,
        spread,
    })
}

fn coupling_of<'a>(value: &'a Value) -> Option<CouplingDraft<'a>>
    ensures { option_map coupling_view result ≡ coupling_of (view value.now) }
{
    if !has_items(value, 4) {
        return None;
    }
    let source = value.get(0)?.as_str()?;
    let source_port = value.get(1)?.as_u64()?;
    let destination = value.get(2)?.as_str()?;
    let destination_port = value.get(3)?.as_u64()?;
    Some(CouplingDraft {
        source,
        source_port,
        destination,
        destination_port,
    })
}

fn input_of<'a>(value: &'a Value) -> Option<InputDraft<'a>>
    ensures { option_map input_view result ≡ input_of (view value.now) }
{
    if !has_members(value, 4) {
        return None;
    }
    let tick = count_at(value, "tick")?;
    let to = text_at(value, "to")?;
    let port = count_at(value, "port")?;
    let value = value_at(value, "value")?;
    Some(InputDraft {
        tick,
        to,
        port,
        value,
    })
}
