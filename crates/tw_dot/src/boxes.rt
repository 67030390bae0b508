//! Atoms as boxes.

use crate::escaped::push_escaped;
use crate::parameters::push_parameters;
use crate::tree::{Component, PORTS, Tree};
use serde_json::Value;
use std::alloc::AllocError;
use tw_file_members::text_in;

/// Adds an atom of a number: its input ports, its name, its model and its parameters, its output ports.
pub(crate) fn push_atom<'a>(
    text: &mut String,
    tree: &Tree<'a>,
    atom: &Component<'a>,
    number: usize,
) -> Result<(), AllocError> {
    write!(text, "c{number} [label=<")?;
    text.push_str(
        "<TABLE BORDER=\"1\" CELLBORDER=\"0\" CELLSPACING=\"0\" CELLPADDING=\"0\" BGCOLOR=\"white\"><TR>",
    )?;
    push_ports(text, "i", &atom.takes)?;
    push_words(text, tree, atom.value)?;
    push_ports(text, "o", &atom.sends)?;
    text.push_str("</TR></TABLE>>];\n")
}

/// Adds the middle of a box.
fn push_words<'a>(text: &mut String, tree: &Tree<'a>, atom: &'a Value) -> Result<(), AllocError> {
    text.push_str("<TD CELLPADDING=\"5\"><B>")?;
    push_escaped(text, text_in(atom, "name"))?;
    text.push_str("</B><BR/>")?;
    push_escaped(text, text_in(atom, "model"))?;
    push_parameters(text, tree, atom)?;
    text.push_str("</TD>")
}

/// Adds the ports of a side that are used, one below the other; nothing where none is.
fn push_ports(text: &mut String, side: &str, ports: &[bool; PORTS]) -> Result<(), AllocError> {
    if !ports.iter().any(|used| *used) {
        return Ok(());
    }
    text.push_str("<TD><TABLE BORDER=\"0\" CELLBORDER=\"0\" CELLSPACING=\"1\" CELLPADDING=\"2\">")?;
    for (port, used) in ports.iter().enumerate() {
        if *used {
            write!(text, "<TR><TD PORT=\"{side}{port}\" BGCOLOR=\"#e4e4e4\">")?;
            write!(text, "<FONT POINT-SIZE=\"8\">{port}</FONT></TD></TR>")?;
        }
    }
    text.push_str("</TABLE></TD>")
}
