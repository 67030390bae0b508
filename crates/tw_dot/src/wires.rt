//! What leads to a port, and what leaves from one.

use crate::tree::{PORTS, Shape, Tree};
use serde_json::Value;
use std::alloc::{AllocError, Global};
use tw_file_members::{count_at, items_in, text_in};

/// The side of a port.
#[derive(Clone, Copy)]
pub(crate) enum Side {
    Input,
    Output,
}

/// A port of the component at a place.
#[derive(Clone, Copy)]
pub(crate) struct Port {
    pub component: usize,
    pub side: Side,
    pub number: usize,
}

/// A coupling, from port to port.
#[derive(Clone, Copy)]
pub(crate) struct Wire {
    pub from: Port,
    pub to: Port,
}

/// The couplings of all models, the whole file first and each model before those in it; their ports are used from now on.
pub(crate) fn wires_of(alloc: Global, tree: &mut Tree<'_>) -> Result<Vec<Wire>, AllocError> {
    let mut wires = Vec::new(alloc);
    for place in 0..tree.components.len() {
        if let Some(model) = tree.components.get(place) {
            for coupling in items_in(model.value, "couplings") {
                if let Some(wire) = wire_of(tree, place, coupling) {
                    wires.push(wire)?;
                }
            }
        }
    }
    for wire in wires.iter() {
        use_port(tree, wire.from);
        use_port(tree, wire.to);
    }
    Ok(wires)
}

/// The coupling of the model at a place that a value says.
fn wire_of<'a>(tree: &Tree<'a>, model: usize, coupling: &'a Value) -> Option<Wire> {
    let from = end_of(tree, model, coupling, 0, Side::Output)?;
    let to = end_of(tree, model, coupling, 2, Side::Input)?;
    Some(Wire { from, to })
}

/// The end of a coupling whose name is this item of it, and the number of its port the next: a port on this side of a
/// component, or on the other side of the model itself.
fn end_of<'a>(
    tree: &Tree<'a>,
    model: usize,
    coupling: &'a Value,
    item: usize,
    side: Side,
) -> Option<Port> {
    let name = coupling.get(item)?.as_str()?;
    let number = number_of(coupling.get(item.saturating_add(1))?.as_u64()?)?;
    if !name.is_empty() {
        let component = tree.place(model, name)?;
        return Some(Port {
            component,
            side,
            number,
        });
    }
    if model == 0 {
        return None;
    }
    let side = match side {
        Side::Input => Side::Output,
        Side::Output => Side::Input,
    };
    Some(Port {
        component: model,
        side,
        number,
    })
}

/// The number of a port, where a component may have it.
fn number_of(said: u64) -> Option<usize> {
    let number = usize::try_from(said).ok()?;
    (number < PORTS).then_some(number)
}

/// From now on a port is used.
fn use_port(tree: &mut Tree<'_>, port: Port) {
    if port.component < tree.components.len() && port.number < PORTS {
        match port.side {
            Side::Input => tree.components[port.component].takes[port.number] = true,
            Side::Output => tree.components[port.component].sends[port.number] = true,
        }
    }
}

/// Counts the inputs of the network at the ports that they go to, which are used from now on.
pub(crate) fn count_inputs<'a>(tree: &mut Tree<'a>, file: &'a Value) {
    for input in items_in(file, "inputs") {
        if let Some(port) = input_port(tree, input) {
            use_port(tree, port);
            count_input(tree, port);
        }
    }
}

/// The port that an input goes to.
fn input_port<'a>(tree: &Tree<'a>, input: &'a Value) -> Option<Port> {
    let number = number_of(count_at(input, "port")?)?;
    let mut component = 0;
    for name in text_in(input, "to").split('.') {
        component = tree.place(component, name)?;
    }
    match tree.components.get(component)?.shape {
        Shape::Atom(_) => Some(Port {
            component,
            side: Side::Input,
            number,
        }),
        _ => None,
    }
}

/// Counts an input at a port.
fn count_input(tree: &mut Tree<'_>, port: Port) {
    if port.component < tree.components.len() && port.number < PORTS {
        let count = tree.components[port.component].inputs[port.number];
        tree.components[port.component].inputs[port.number] = count.saturating_add(1);
    }
}
