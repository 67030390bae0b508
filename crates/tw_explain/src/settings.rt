//! The parameters of a line that cannot be set in a network's file.

use crate::nearest::Nearest;
use serde_json::Value;
use std::alloc::{AllocError, Global};
use tw_file_settings::Settings;

/// The words for a line that sets what cannot be set in a network's file (23): a line for each such parameter, with up to three names that
/// are nearest to the one that is not there. None of a file that is no JSON.
///
/// Refused for want of memory (4).
pub fn setting_words(
    alloc: Global,
    bytes: &[u8],
    settings: &Settings<'_>,
) -> Result<String, AllocError> {
    let mut lines = String::new(alloc);
    let Ok(file) = Value::from_slice(alloc, bytes) else {
        return Ok(lines);
    };
    for assignment in settings.assignments.as_slice() {
        let line = target_line(alloc, &file, assignment.target)?;
        lines.push_str(line.as_str())?;
    }
    Ok(lines)
}

/// The line for a target, on whose way from the root each name is looked for; nothing where its parameter can be set.
fn target_line(alloc: Global, file: &Value, target: &str) -> Result<String, AllocError> {
    let Some((path, parameter)) = target.rsplit_once('.') else {
        return parameter_line(alloc, file, target, target);
    };
    let mut model = file;
    for name in path.split('.') {
        match component_named(model, name) {
            Some(component) => model = component,
            None => return component_line(alloc, model, target, name),
        }
    }
    parameter_line(alloc, model, target, parameter)
}

/// The components of a model.
fn components_of(model: &Value) -> &[Value] {
    match model.get("components") {
        Some(Value::Array(components)) => components.as_slice(),
        _ => &[],
    }
}

/// The first component of a name in a model.
fn component_named<'v>(model: &'v Value, name: &str) -> Option<&'v Value> {
    for component in components_of(model) {
        if component.get("name").and_then(Value::as_str) == Some(name) {
            return Some(component);
        }
    }
    None
}

/// The line for a name that no component of a model has.
fn component_line(
    alloc: Global,
    model: &Value,
    target: &str,
    name: &str,
) -> Result<String, AllocError> {
    let mut nearest = Nearest::new(alloc, name);
    for component in components_of(model) {
        if let Some(own) = component.get("name").and_then(Value::as_str) {
            nearest.add(own)?;
        }
    }
    nearest.line(format!(in alloc; "--set {target}: no component is named")?.as_str())
}

/// The line for a parameter that a component has not, or that is no number; nothing where it can be set.
fn parameter_line(
    alloc: Global,
    component: &Value,
    target: &str,
    name: &str,
) -> Result<String, AllocError> {
    if component.get("model").is_none() {
        return format!(in alloc;
            "--set {target}: the component is a coupled model, and has no parameters\n"
        );
    }
    match component.get(name) {
        Some(Value::Array(_)) if !is_kept(name) => {
            format!(in alloc; "--set {target}: the parameter is a list, and stays one\n")
        }
        Some(_) if !is_kept(name) => Ok(String::new(alloc)),
        _ => no_parameter_line(alloc, component, target, name),
    }
}

/// Whether a member of a component says what it is, and is no parameter.
fn is_kept(name: &str) -> bool {
    matches!(name, "name" | "model" | "components" | "couplings")
}

/// The line for a parameter that a component has not.
fn no_parameter_line(
    alloc: Global,
    component: &Value,
    target: &str,
    name: &str,
) -> Result<String, AllocError> {
    let mut nearest = Nearest::new(alloc, name);
    if let Value::Object(members) = component {
        for (own, member) in members {
            if !is_kept(own.as_str()) && !member.is_array() {
                nearest.add(own.as_str())?;
            }
        }
    }
    nearest.line(format!(in alloc; "--set {target}: the component has no parameter")?.as_str())
}
