//! What a component gives to its model.

use crate::escaped::push_escaped;
use crate::tree::Tree;
use serde_json::Value;
use std::alloc::{AllocError, Global};
use tw_file_members::{items_in, text_in};
use tw_models::KINDS;

/// So many parameters stand on a line.
const ON_A_LINE: usize = 3;

/// A list of more numbers is shortened to so many less one.
const MOST_NUMBERS: usize = 4;

/// Adds the parameters of a component in the order in which its model has them, as `period 2, value 5`.
pub(crate) fn push_parameters<'a>(
    text: &mut String,
    tree: &Tree<'a>,
    component: &'a Value,
) -> Result<(), AllocError> {
    let alloc = *text.allocator();
    let names = names_of(alloc, tree, text_in(component, "model"))?;
    for (place, name) in names.iter().enumerate() {
        text.push_str(before(place))?;
        push_parameter(text, component, name)?;
    }
    if names.is_empty() {
        return Ok(());
    }
    text.push_str("</FONT>")
}

/// Adds the parameter of a name that a component gives.
fn push_parameter(text: &mut String, component: &Value, name: &str) -> Result<(), AllocError> {
    push_escaped(text, name)?;
    if let Some(value) = component.get(name) {
        text.push_str(" ")?;
        push_value(text, value)?;
    }
    Ok(())
}

/// What stands before a parameter.
fn before(place: usize) -> &'static str {
    if place == 0 {
        "<BR/><FONT POINT-SIZE=\"9\">"
    } else if place % ON_A_LINE == 0 {
        ",<BR/>"
    } else {
        ", "
    }
}

/// The names of the parameters of a model: of a built-in one, or of a machine.
fn names_of<'a>(
    alloc: Global,
    tree: &Tree<'a>,
    model: &'a str,
) -> Result<Vec<&'a str>, AllocError> {
    let mut names = Vec::new(alloc);
    if let Some(kind) = KINDS.iter().find(|kind| kind.name == model) {
        for parameter in kind.parameters {
            names.push(parameter.name)?;
        }
    } else if let Some(machine) = tree.machine(model) {
        for name in items_in(machine, "parameters") {
            if let Some(name) = name.as_str() {
                names.push(name)?;
            }
        }
    }
    Ok(names)
}

/// Adds the value of a parameter: a number, or a list.
fn push_value(text: &mut String, value: &Value) -> Result<(), AllocError> {
    match value.as_array() {
        Some(items) => push_list(text, items.as_slice()),
        None => push_plain(text, value),
    }
}

/// Adds a list, as `[1, 2]`; a long one by its first numbers, and how many it has.
fn push_list(text: &mut String, items: &[Value]) -> Result<(), AllocError> {
    let count = items.len();
    let shown = if count > MOST_NUMBERS {
        MOST_NUMBERS - 1
    } else {
        count
    };
    text.push_str("[")?;
    for (place, item) in items.iter().take(shown).enumerate() {
        if place > 0 {
            text.push_str(", ")?;
        }
        push_plain(text, item)?;
    }
    if shown < count {
        return write!(text, ", .. {count} in all]");
    }
    text.push_str("]")
}

/// Adds a value as the file has it.
fn push_plain(text: &mut String, value: &Value) -> Result<(), AllocError> {
    let said = value.to_string(*text.allocator())?;
    push_escaped(text, said.as_str())
}
