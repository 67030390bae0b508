//! Couplings and inputs as edges of the graph.

use crate::tree::{Component, Shape, Tree};
use crate::wires::{Port, Side, Wire};
use std::alloc::AllocError;

/// Adds an edge for each coupling.
pub(crate) fn push_couplings(
    text: &mut String,
    tree: &Tree<'_>,
    wires: &[Wire],
) -> Result<(), AllocError> {
    for wire in wires {
        text.push_str("  ")?;
        push_port(text, tree, wire.from, "e")?;
        text.push_str(" -> ")?;
        push_port(text, tree, wire.to, "w")?;
        text.push_str(";\n")?;
    }
    Ok(())
}

/// Adds an end of an edge: a port of an atom, at its left (`w`) or its right (`e`), or a port of a coupled model.
fn push_port(
    text: &mut String,
    tree: &Tree<'_>,
    port: Port,
    compass: &str,
) -> Result<(), AllocError> {
    let Some(component) = tree.components.get(port.component) else {
        return Ok(());
    };
    let place = port.number;
    let side = match port.side {
        Side::Input => "i",
        Side::Output => "o",
    };
    match component.shape {
        Shape::Atom(number) => write!(text, "c{number}:{side}{place}:{compass}"),
        Shape::Coupled(number) => write!(text, "p{number}{side}{place}"),
        Shape::File => Ok(()),
    }
}

/// Adds where the inputs come from, and an edge for each port that some go to; nothing where there are none.
pub(crate) fn push_inputs(text: &mut String, tree: &Tree<'_>) -> Result<(), AllocError> {
    if !tree
        .components
        .iter()
        .any(|component| has_inputs(component))
    {
        return Ok(());
    }
    text.push_str("  inputs [shape=plaintext, fontcolor=\"#767676\"];\n")?;
    for component in tree.components.iter() {
        push_inputs_of(text, component)?;
    }
    Ok(())
}

/// Whether an input goes to a component.
fn has_inputs(component: &Component<'_>) -> bool {
    component.inputs.iter().any(|count| *count > 0)
}

/// Adds an edge for each port of a component that inputs go to.
fn push_inputs_of(text: &mut String, component: &Component<'_>) -> Result<(), AllocError> {
    let Shape::Atom(number) = component.shape else {
        return Ok(());
    };
    for (port, count) in component.inputs.iter().enumerate() {
        if *count > 0 {
            let many = if *count == 1 { "" } else { "s" };
            write!(
                text,
                "  inputs -> c{number}:i{port}:w [label=\"{count} input{many}\", style=dashed];\n"
            )?;
        }
    }
    Ok(())
}
