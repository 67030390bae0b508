//! A number in the place of a parameter's.

ghost use Rattle.std.specs.Prelude.{◌≡◌, ◌<◌, IfErr, None, OnOk, Some, IfSome, length};
ghost use Rattle.serde_json.specs.View.{view, items_view, number_view};
ghost use Rattle.tw_file_settings.specs.Assigned.{assigned, is_kept, parameter_set, place_named};
ghost use Rattle.tw_file_settings.specs.declared.refused.SettingRefused.TheVariants as refused;

use crate::members::{is_named, put_components, put_member, take_components};
use crate::refused::SettingRefused;
use serde_json::{Number, Value};
use std::alloc::Global;

/// Whether a member of a component says what the component is, and is no parameter.
fn is_kept(name: &str) -> bool
    ensures { result ≡ is_kept name.now }
{
    matches!(name, "name" | "model" | "components" | "couplings")
}

/// Puts a number in the place of a component's parameter.
fn set_parameter(
    alloc: Global,
    component: &mut Value,
    name: &str,
    number: Number,
) -> Result<(), SettingRefused>
    ensures ok { OnOk result
        (parameter_set name.now (number_view number) (view component.old) ≡ Some (view component.new)) }
    ensures err { IfErr result (λ e. e ≡ refused.NoParameter
        → parameter_set name.now (number_view number) (view component.old) ≡ None) }
{
    if is_kept(name) || component.get("model").is_none() {
        return Err(SettingRefused::NoParameter);
    }
    match component.get(name) {
        None | Some(Value::Array(_)) => return Err(SettingRefused::NoParameter),
        Some(_) => {}
    }
    put_member(alloc, component, name, Value::Number(number))?;
    Ok(())
}

/// The place of the first component of a name.
fn place_named(components: &[Value], name: &str) -> Option<usize>
    ensures place { result ≡ place_named 0 name.now (items_view components.now) }
    ensures within { IfSome result (λ place. place < length components.now) }
{
    for (place, component) in components.iter().enumerate() {
        if is_named(component, name) {
            return Some(place);
        }
    }
    None
}

/// Puts a number in the place of a parameter of a component in a model: the target is the component's path, a dot and the parameter.
pub(crate) fn assign(
    alloc: Global,
    model: &mut Value,
    target: &str,
    number: Number,
) -> Result<(), SettingRefused>
    ensures ok { OnOk result
        (assigned target.now (number_view number) (view model.old) ≡ Some (view model.new)) }
    ensures err { IfErr result (λ e. e ≡ refused.NoParameter
        → assigned target.now (number_view number) (view model.old) ≡ None) }
{
    let Some((name, rest)) = target.split_once('.') else {
        return set_parameter(alloc, model, target, number);
    };
    let Some(mut components) = take_components(alloc, model)? else {
        return Err(SettingRefused::NoParameter);
    };
    let Some(place) = place_named(components.as_slice(), name) else {
        return Err(SettingRefused::NoParameter);
    };
    assign(alloc, &mut components[place], rest, number)?;
    put_components(alloc, model, components)?;
    Ok(())
}
