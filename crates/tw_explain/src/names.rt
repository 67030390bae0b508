//! The names of what is to be shown that nothing has.

use crate::nearest::Nearest;
use serde_json::Value;
use std::alloc::{AllocError, Global};
use tw_any_model::AnyModel;
use tw_figure_names::labels_in;
use tw_file_network::{json_of, network_of_value};
use tw_network::Network;

/// The words for a view that is refused since no component has one of the names of `only`, which are parted by commas, or no component
/// that is shown has one of the figures (15): a line for each such name, with up to three names that are nearest to it. None of a file
/// that means no network.
///
/// Refused for want of memory (4).
pub fn name_words(
    alloc: Global,
    bytes: &[u8],
    only: Option<&str>,
    figures: &[&str],
) -> Result<String, AllocError> {
    let Ok(file) = json_of(alloc, bytes) else {
        return Ok(String::new(alloc));
    };
    let Ok(network) = network_of_value(alloc, &file) else {
        return Ok(String::new(alloc));
    };
    let mut lines = component_lines(alloc, &network, only)?;
    if lines.is_empty() {
        for figure in figures {
            let line = figure_line(alloc, &file, &network, only, figure)?;
            lines.push_str(line.as_str())?;
        }
    }
    Ok(lines)
}

/// A line for each name that no component has.
fn component_lines(
    alloc: Global,
    network: &Network<AnyModel>,
    only: Option<&str>,
) -> Result<String, AllocError> {
    let mut lines = String::new(alloc);
    let Some(only) = only else {
        return Ok(lines);
    };
    for wanted in only.split(',') {
        if !is_component(network, wanted) {
            let mut nearest = Nearest::new(alloc, wanted);
            for component in 0..network.len() {
                nearest.add(network.name(component))?;
            }
            lines.push_str(nearest.line("no component is named")?.as_str())?;
        }
    }
    Ok(lines)
}

/// Whether a component has the name.
fn is_component(network: &Network<AnyModel>, name: &str) -> bool {
    for component in 0..network.len() {
        if network.name(component) == name {
            return true;
        }
    }
    false
}

/// Whether a component is shown, where only these names are.
fn is_shown(name: &str, only: Option<&str>) -> bool {
    match only {
        Some(only) => only.split(',').any(|shown| shown == name),
        None => true,
    }
}

/// Whether a figure that is asked for is asked of a component: of each, or of the one of this name.
fn is_asked(name: &str, of: Option<&str>) -> bool {
    match of {
        Some(of) => of == name,
        None => true,
    }
}

/// The component and the figure that a text asks for: behind the name of a component and `=` that of this component, else the whole.
fn asked_in<'a>(network: &Network<AnyModel>, text: &'a str) -> (Option<&'a str>, &'a str) {
    match text.split_once('=') {
        Some((name, figure)) if is_component(network, name) => (Some(name), figure),
        _ => (None, text),
    }
}

/// The line for a figure that no component has that is shown; nothing where one has it.
fn figure_line(
    alloc: Global,
    file: &Value,
    network: &Network<AnyModel>,
    only: Option<&str>,
    text: &str,
) -> Result<String, AllocError> {
    let (of, wanted) = asked_in(network, text);
    let labels = labels_in(alloc, file, network)?;
    let mut nearest = Nearest::new(alloc, wanted);
    for (component, label) in labels.as_slice().iter().enumerate() {
        if component >= network.len() {
            continue;
        }
        let name = network.name(component);
        if !is_shown(name, only) || !is_asked(name, of) {
            continue;
        }
        for figure in label.figures.as_slice() {
            if figure.name.as_str() == wanted {
                return Ok(String::new(alloc));
            }
            nearest.add(figure.name.as_str())?;
        }
    }
    nearest.line("no component that is shown has the figure")
}
