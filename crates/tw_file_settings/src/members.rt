//! Members of JSON objects, taken out and put back.

ghost use Rattle.std.specs.Prelude.{◌≡◌, codes, IfOk, None, OnOk, IsSome, option_map};
ghost use Rattle.serde_json.specs.Data.{array, null};
ghost use Rattle.serde_json.specs.Find.{get};
ghost use Rattle.serde_json.specs.View.{view, items_view};
ghost use Rattle.tw_file_settings.specs.Members.{components_of, is_named, items_at, text_at, with_at};

use serde_json::Value;
use std::alloc::{AllocError, Global};

/// A member that is a text.
pub(crate) fn text_at<'a>(value: &'a Value, name: &str) -> Option<&'a str>
    ensures { option_map (λ t. t.now) result ≡ text_at name.now (view value.now) }
{
    value.get(name)?.as_str()
}

/// The items of a member that is an array; none where it is no array.
pub(crate) fn items_at<'a>(value: &'a Value, name: &str) -> &'a [Value]
    ensures { items_view result.now ≡ items_at name.now (view value.now) }
{
    match value.get(name) {
        Some(Value::Array(items)) => items.as_slice(),
        _ => &[],
    }
}

/// Whether the value has this name.
pub(crate) fn is_named(value: &Value, name: &str) -> bool
    ensures { result ≡ is_named name.now (view value.now) }
{
    match text_at(value, "name") {
        Some(own) => own == name,
        None => false,
    }
}

/// Takes a member out, and leaves null in its place; none where there is no such member.
pub(crate) fn take_member(
    alloc: Global,
    value: &mut Value,
    name: &str,
) -> Result<Option<Value>, AllocError>
    ensures found { IfOk result (λ o. option_map view o ≡ get name.now (view value.old)) }
    ensures left { IfOk result (λ o. IsSome o
        → view value.new ≡ with_at name.now null (view value.old)) }
    ensures stays { IfOk result (λ o. option_map view o ≡ None
        → view value.new ≡ view value.old) }
{
    if value.get(name).is_none() {
        return Ok(None);
    }
    let Some(members) = value.as_object_mut() else {
        return Ok(None);
    };
    Ok(members.insert(String::from_str(alloc, name)?, Value::Null)?)
}

/// Takes the components of a model out, and leaves null in their place; none, and the model as it was, where they are no array.
pub(crate) fn take_components(
    alloc: Global,
    model: &mut Value,
) -> Result<Option<Vec<Value>>, AllocError>
    ensures found { IfOk result (λ o. option_map (λ components. items_view components.items) o
        ≡ components_of (view model.old)) }
    ensures left { IfOk result (λ o. IsSome o
        → view model.new ≡ with_at (codes "components") null (view model.old)) }
    ensures stays { IfOk result (λ o. o ≡ None → view model.new ≡ view model.old) }
{
    let Some(Value::Array(_)) = model.get("components") else {
        return Ok(None);
    };
    match take_member(alloc, model, "components")? {
        Some(Value::Array(components)) => Ok(Some(components)),
        _ => Ok(None),
    }
}

/// Puts a member in its place, where the value is an object.
pub(crate) fn put_member(
    alloc: Global,
    value: &mut Value,
    name: &str,
    member: Value,
) -> Result<(), AllocError>
    ensures { OnOk result (view value.new ≡ with_at name.now (view member) (view value.old)) }
{
    match value.as_object_mut() {
        Some(members) => serde_json::put(members, alloc, name, member),
        None => Ok(()),
    }
}

/// Puts the components of a model in their place.
pub(crate) fn put_components(
    alloc: Global,
    model: &mut Value,
    components: Vec<Value>,
) -> Result<(), AllocError>
    ensures { OnOk result (view model.new
        ≡ with_at (codes "components") (array (items_view components.items)) (view model.old)) }
{
    put_member(alloc, model, "components", Value::Array(components))
}
