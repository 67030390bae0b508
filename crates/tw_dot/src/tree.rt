//! The components of a file, and how they nest.

use serde_json::Value;
use std::alloc::{AllocError, Global};
use std::collections::BTreeMap;
use tw_file_members::{items_in, text_in};

/// More levels than a JSON text can have: a level of components takes two of its 127.
const ROOM: usize = 64;

/// How many ports a component may have on a side.
pub(crate) const PORTS: usize = 16;

/// What a component is, with its number among those that are the same.
#[derive(Clone, Copy)]
pub(crate) enum Shape {
    /// The whole file, which has no ports.
    File,
    Atom(usize),
    Coupled(usize),
}

/// A component of a file, or the whole file.
#[derive(Clone, Copy)]
pub(crate) struct Component<'a> {
    pub shape: Shape,
    pub value: &'a Value,
    /// The input ports that something leads to, the output ports that something leaves from.
    pub takes: [bool; PORTS],
    pub sends: [bool; PORTS],
    /// How many inputs of the network go to each port.
    pub inputs: [usize; PORTS],
}

/// A visit on the way round all components, which are told by their places.
#[derive(Clone, Copy)]
pub(crate) enum Visit {
    /// An atom.
    Atom(usize),
    /// The way goes into a coupled model.
    Into(usize),
    /// It goes out of the one that it went into last.
    Out,
}

/// The components of a file.
#[derive(Drop)]
pub(crate) struct Tree<'a> {
    /// The whole file first, each coupled model before those in it, and else in the order of the file.
    pub components: Vec<Component<'a>>,
    /// The way round all of them in that order.
    pub way: Vec<Visit>,
    /// The machines that the file declares, by their names.
    machines: BTreeMap<&'a str, &'a Value>,
    /// The place of a component, by that of the model that it is in and by its name.
    places: BTreeMap<(usize, &'a str), usize>,
    atoms: usize,
    coupled: usize,
}

impl<'a> Tree<'a> {
    /// The components of a file, of which no port is used yet.
    pub fn new(alloc: Global, file: &'a Value) -> Result<Tree<'a>, AllocError> {
        let mut machines = BTreeMap::new(alloc);
        for machine in items_in(file, "models") {
            machines.insert(text_in(machine, "name"), machine)?;
        }
        let mut tree = Tree {
            components: Vec::new(alloc),
            way: Vec::new(alloc),
            machines,
            places: BTreeMap::new(alloc),
            atoms: 0,
            coupled: 0,
        };
        tree.components.push(unused(Shape::File, file))?;
        add_within(&mut tree, 0, file, ROOM)?;
        Ok(tree)
    }

    /// The place of the component of a name in the model at a place.
    pub fn place(&self, model: usize, name: &'a str) -> Option<usize> {
        self.places.get(&(model, name)).copied()
    }

    /// The machine of a name.
    pub fn machine(&self, name: &'a str) -> Option<&'a Value> {
        self.machines.get(&name).copied()
    }

    /// Adds a component of the model at a place, and answers its own place.
    fn add(&mut self, model: usize, value: &'a Value) -> Result<usize, AllocError> {
        let place = self.components.len();
        let shape = if is_coupled(value) {
            let number = self.coupled;
            self.coupled = number.saturating_add(1);
            Shape::Coupled(number)
        } else {
            let number = self.atoms;
            self.atoms = number.saturating_add(1);
            Shape::Atom(number)
        };
        self.components.push(unused(shape, value))?;
        self.places.insert((model, text_in(value, "name")), place)?;
        Ok(place)
    }
}

/// A component of which no port is used.
fn unused<'a>(shape: Shape, value: &'a Value) -> Component<'a> {
    Component {
        shape,
        value,
        takes: [false; PORTS],
        sends: [false; PORTS],
        inputs: [0; PORTS],
    }
}

/// Whether a component is a coupled model.
fn is_coupled(value: &Value) -> bool {
    value.get("components").is_some()
}

/// Adds the components of the model at a place, each with those in it.
fn add_within<'a>(
    tree: &mut Tree<'a>,
    model: usize,
    value: &'a Value,
    room: usize,
) -> Result<(), AllocError> {
    if room == 0 {
        return Ok(());
    }
    for component in items_in(value, "components") {
        let place = tree.add(model, component)?;
        if is_coupled(component) {
            tree.way.push(Visit::Into(place))?;
            add_within(tree, place, component, room - 1)?;
            tree.way.push(Visit::Out)?;
        } else {
            tree.way.push(Visit::Atom(place))?;
        }
    }
    Ok(())
}
