//! All components in their order, with the frames of coupled models.

use crate::boxes::push_atom;
use crate::escaped::push_escaped;
use crate::tree::{Component, PORTS, Shape, Tree, Visit};
use std::alloc::AllocError;
use tw_file_members::text_in;

/// Adds all components of a file, each as far in as it is in models.
pub(crate) fn push_components(text: &mut String, tree: &Tree<'_>) -> Result<(), AllocError> {
    let mut depth = 1usize;
    for visit in tree.way.iter() {
        if let Visit::Out = visit {
            depth = depth.saturating_sub(1);
        }
        push_visit(text, tree, *visit, depth)?;
        if let Visit::Into(_) = visit {
            depth = depth.saturating_add(1);
        }
    }
    Ok(())
}

/// Adds blanks before a line.
fn push_indent(text: &mut String, depth: usize) -> Result<(), AllocError> {
    for _ in 0..depth {
        text.push_str("  ")?;
    }
    Ok(())
}

/// Adds what a visit comes to: an atom, the beginning of a frame, or its end.
fn push_visit(
    text: &mut String,
    tree: &Tree<'_>,
    visit: Visit,
    depth: usize,
) -> Result<(), AllocError> {
    push_indent(text, depth)?;
    let place = match visit {
        Visit::Out => return text.push_str("}\n"),
        Visit::Atom(place) | Visit::Into(place) => place,
    };
    let Some(component) = tree.components.get(place) else {
        return Ok(());
    };
    match component.shape {
        Shape::Atom(number) => push_atom(text, tree, component, number),
        Shape::Coupled(number) => push_frame(text, component, number, depth.saturating_add(1)),
        Shape::File => Ok(()),
    }
}

/// Adds the beginning of the frame of a coupled model of a number: its name, its input ports at the left, its output ports
/// at the right.
fn push_frame(
    text: &mut String,
    model: &Component<'_>,
    number: usize,
    depth: usize,
) -> Result<(), AllocError> {
    write!(text, "subgraph cluster_{number} {{\n")?;
    push_indent(text, depth)?;
    text.push_str("label=<<B>")?;
    push_escaped(text, text_in(model.value, "name"))?;
    text.push_str("</B>>; margin=10;\n")?;
    let inputs = PortRow {
        rank: "source",
        side: "i",
        ports: &model.takes,
    };
    push_row(text, &inputs, number, depth)?;
    let outputs = PortRow {
        rank: "sink",
        side: "o",
        ports: &model.sends,
    };
    push_row(text, &outputs, number, depth)
}

/// The ports on a side of a coupled model, and where they stand in its frame.
#[derive(Clone, Copy)]
struct PortRow<'a> {
    rank: &'static str,
    side: &'static str,
    ports: &'a [bool; PORTS],
}

/// Adds the ports of a side that are used, one below the other; nothing where none is.
fn push_row(
    text: &mut String,
    row: &PortRow<'_>,
    number: usize,
    depth: usize,
) -> Result<(), AllocError> {
    let ports = row.ports;
    if !ports.iter().any(|used| *used) {
        return Ok(());
    }
    push_indent(text, depth)?;
    write!(text, "{{ rank={}; ", row.rank)?;
    text.push_str(
        "node [shape=box, style=filled, fillcolor=\"#e4e4e4\", fontsize=8, width=0.16, height=0.16, margin=0.02];",
    )?;
    for (port, used) in ports.iter().enumerate() {
        if *used {
            let side = row.side;
            write!(text, " p{number}{side}{port} [label=\"{port}\"];")?;
        }
    }
    text.push_str(" }\n")
}
