//! Members of a JSON value.

use serde_json::Value;

/// The text that a component or a machine has as its name.
pub fn name_of<'a>(value: &'a Value) -> Option<&'a str> {
    value.get("name").and_then(Value::as_str)
}
