//! Which machines the components of a file use.
ghost use Rattle.std.specs.Prelude.{◌≡◌, ◌||◌};
ghost use Rattle.serde_json.specs.View.{view, items_view};
ghost use Rattle.tw_machine_file.specs.Used.{is_used, names_model, some_item, used_within};

use crate::values::items_of;
use serde_json::Value;

/// More levels than a JSON text of 127 levels can have: a level of components takes two, an object and an array.
const ROOM: usize = 64;

/// Whether a component of a file, or of a model in it, names the model of this name.
pub fn is_used(file: &Value, name: &str) -> bool
    ensures { result ≡ is_used (view file.now) name.now }
{
    used_within(name, file, ROOM)
}

/// Whether a component's model has this name.
fn names_model(name: &str, component: &Value) -> bool
    ensures { result ≡ names_model name.now (view component.now) }
{
    match component.get("model") {
        Some(model) => match model.as_str() {
            Some(model) => model == name,
            None => false,
        },
        None => false,
    }
}

/// Whether a component in a model, of no more levels than there is room for, names the model of this name.
#[cycle(used)]
fn used_within(name: &str, value: &Value, room: usize) -> bool
    ensures { result ≡ used_within name.now room (view value.now) }
{
    if room == 0 {
        return false;
    }
    let Some(components) = value.get("components") else {
        return false;
    };
    match items_of(components) {
        Some(components) => used_by_some(name, components, room - 1),
        None => false,
    }
}

/// Whether one of these components, or one in it, names the model of this name.
#[cycle(used)]
fn used_by_some(name: &str, components: &[Value], room: usize) -> bool
    ensures { result
        ≡ some_item (λ c. names_model name.now c || used_within name.now room c)
        (items_view components.now) }
{
    for component in components {
        if names_model(name, component) || used_within(name, component, room) {
            return true;
        }
    }
    false
}
