//! The places of components and couplings, as faults name them, and what is read of them.
ghost use Rattle.std.specs.Prelude.{◌≡◌, IfOk, option_and_then, option_map, string_bytes};
ghost use Rattle.serde_json.specs.Find.{as_str, at};
ghost use Rattle.serde_json.specs.View.{view, items_view};
ghost use Rattle.tw_file_warnings.specs.Places.{
  component_named,
  component_place,
  count_item,
  coupling_place,
  path_in,
  prefix_in,
  text_item,
};

use serde_json::Value;
use std::alloc::{AllocError, Global};
use tw_file_members::text_in;

/// A model of a file, the file itself or a coupled model in it.
#[derive(Clone, Copy)]
pub(crate) struct PlacedModel<'a> {
    /// What stands before the places in it.
    pub path: &'a str,
    /// What stands before the names in it.
    pub prefix: &'a str,
    pub model: &'a Value,
    /// How many levels are looked at.
    pub room: usize,
}

/// The place of a component of a model.
pub(crate) fn component_place(
    alloc: Global,
    path: &str,
    prefix: &str,
    index: usize,
    component: &Value,
) -> Result<String, AllocError>
    ensures { IfOk result (λ t. string_bytes t
        ≡ component_place path.now prefix.now index (view component.now)) }
{
    let name = text_in(component, "name");
    format!(in alloc; "{path}components[{index}] \"{prefix}{name}\"")
}

/// The place of a coupling of a model.
pub(crate) fn coupling_place(alloc: Global, path: &str, index: usize) -> Result<String, AllocError>
    ensures { IfOk result (λ t. string_bytes t ≡ coupling_place path.now index) }
{
    format!(in alloc; "{path}couplings[{index}]")
}

/// What stands before the places in a component.
pub(crate) fn path_in(alloc: Global, path: &str, index: usize) -> Result<String, AllocError>
    ensures { IfOk result (λ t. string_bytes t ≡ path_in path.now index) }
{
    format!(in alloc; "{path}components[{index}].")
}

/// What stands before the names in a component.
pub(crate) fn prefix_in(
    alloc: Global,
    prefix: &str,
    component: &Value,
) -> Result<String, AllocError>
    ensures { IfOk result (λ t. string_bytes t ≡ prefix_in prefix.now (view component.now)) }
{
    let name = text_in(component, "name");
    format!(in alloc; "{prefix}{name}.")
}

fn some_text(value: &Value, index: usize) -> Option<&str>
    ensures { option_map (λ t. t.now) result
        ≡ option_and_then as_str (at index (view value.now)) }
{
    value.get(index)?.as_str()
}

/// An item of an array that is a text; the empty text where it is not.
pub(crate) fn text_item(value: &Value, index: usize) -> &str
    ensures { result.now ≡ text_item index (view value.now) }
{
    some_text(value, index).unwrap_or("")
}

/// An item of an array that is a number without a sign.
pub(crate) fn count_item(value: &Value, index: usize) -> Option<u64>
    ensures { result ≡ count_item index (view value.now) }
{
    value.get(index)?.as_u64()
}

/// The first component of a name.
pub(crate) fn component_named<'a>(components: &'a [Value], name: &str) -> Option<&'a Value>
    ensures { option_map (λ v. view v.now) result
        ≡ component_named (items_view components.now) name.now }
{
    for component in components {
        if text_in(component, "name") == name {
            return Some(component);
        }
    }
    None
}
