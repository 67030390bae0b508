//! The models and the components of a file, each with its place.

use serde_json::Value;
use std::alloc::{AllocError, Global};
use tw_file_members::items_in;
use tw_machine_faults::name_of;
use tw_machine_text_faults::quoted;

/// More levels than a JSON text can have: a level of components takes two of its 127.
const ROOM: usize = 64;

/// A component that is no coupled model.
#[derive(Drop)]
pub struct Atom<'a> {
    /// Its place, with its name: `components[1].components[0] "left.saw"`.
    pub place: String,
    /// Its flat name: the names on its way, joined by dots.
    pub name: String,
    pub value: &'a Value,
}

/// The whole file, or a coupled model in it.
#[derive(Drop)]
pub struct Level<'a> {
    /// Its place, with its name: `the file`, or `components[1] "left"`.
    pub place: String,
    /// What stands before the places in it: nothing in the whole file, else as `components[1].`.
    pub path: String,
    /// What stands before the flat names in it: nothing in the whole file, else as `left.`.
    pub prefix: String,
    /// How many models it is in.
    pub depth: usize,
    pub value: &'a Value,
}

/// A file's models and atoms in order. What has another shape is passed over.
#[derive(Drop)]
pub struct Outline<'a> {
    /// The whole file first, and each model before those in it.
    pub levels: Vec<Level<'a>>,
    /// Depth first.
    pub atoms: Vec<Atom<'a>>,
    /// Whether components may be coupled models: the format is `tw-2` or `tw-3`.
    pub has_trees: bool,
    /// Whether components may be machines of `models`: the format is `tw-3`.
    pub has_machines: bool,
}

impl<'a> Outline<'a> {
    /// The outline of a file.
    pub fn new(alloc: Global, value: &'a Value) -> Result<Outline<'a>, AllocError> {
        let format = value.get("format").and_then(Value::as_str).unwrap_or("");
        let mut outline = Outline {
            levels: Vec::new(alloc),
            atoms: Vec::new(alloc),
            has_trees: format == "tw-2" || format == "tw-3",
            has_machines: format == "tw-3",
        };
        let file = Level {
            place: String::from_str(alloc, "the file")?,
            path: String::new(alloc),
            prefix: String::new(alloc),
            depth: 0,
            value,
        };
        add_level(alloc, &mut outline, file, ROOM)?;
        Ok(outline)
    }
}

/// Adds a model and all that is in it.
fn add_level<'a>(
    alloc: Global,
    outline: &mut Outline<'a>,
    level: Level<'a>,
    room: usize,
) -> Result<(), AllocError> {
    let path = level.path.clone()?;
    let prefix = level.prefix.clone()?;
    let depth = level.depth.saturating_add(1);
    let value = level.value;
    outline.levels.push(level)?;
    if room == 0 {
        return Ok(());
    }
    for (i, component) in items_in(value, "components").iter().enumerate() {
        let place = place_of(alloc, path.as_str(), prefix.as_str(), i, component)?;
        let name = name_of(component).unwrap_or("");
        if outline.has_trees && is_coupled(component) {
            let level = Level {
                place,
                path: format!(in alloc; "{path}components[{i}].")?,
                prefix: format!(in alloc; "{prefix}{name}.")?,
                depth,
                value: component,
            };
            add_level(alloc, outline, level, room - 1)?;
        } else {
            outline.atoms.push(Atom {
                place,
                name: format!(in alloc; "{prefix}{name}")?,
                value: component,
            })?;
        }
    }
    Ok(())
}

/// The place of a component with its flat name, where it has a name.
pub fn place_of(
    alloc: Global,
    path: &str,
    prefix: &str,
    i: usize,
    component: &Value,
) -> Result<String, AllocError> {
    match name_of(component) {
        Some(name) => {
            let name = format!(in alloc; "{prefix}{name}")?;
            let name = quoted(alloc, name.as_str())?;
            format!(in alloc; "{path}components[{i}] {name}")
        }
        None => format!(in alloc; "{path}components[{i}]"),
    }
}

/// Whether a component is written as a coupled model.
fn is_coupled(component: &Value) -> bool {
    component.get("model").is_none() && component.get("components").is_some()
}
