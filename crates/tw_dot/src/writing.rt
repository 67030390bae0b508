//! The graph of a file, made and written.

ghost use Rattle.std.specs.Prelude.{◌≡◌, IfErr};

use crate::edges::{push_couplings, push_inputs};
use crate::frames::push_components;
use crate::tree::Tree;
use crate::wires::{count_inputs, wires_of};
use serde_json::Value;
use std::alloc::{AllocError, Global};
use std::io::Write;
use tw_texts::NotWritten;

/// What all boxes, frames and edges have alike. Words in them are black on a light ground; edges, and words beside them, are of a
/// grey that is read on light and on dark.
const HEAD: &str = "digraph network {
  graph [rankdir=LR, bgcolor=transparent, nodesep=0.25, ranksep=0.5, fontname=\"Helvetica,Arial,sans-serif\", fontsize=11, style=filled, fillcolor=\"#f4f4f4\", color=\"#808080\", penwidth=0.7];
  node [shape=plain, fontname=\"Helvetica,Arial,sans-serif\", fontsize=11, color=\"#606060\"];
  edge [fontname=\"Helvetica,Arial,sans-serif\", fontsize=9, fontcolor=\"#767676\", color=\"#767676\", penwidth=0.8, arrowsize=0.6];
";

/// Writes the network of a file as a graph in the language DOT (Koutsofios and North 1991), from the file's
/// JSON value. Of a value that is no network file it writes some text.
///
/// Nodes are called `c0`, `c1` and on, the atoms in the order of the flat network; `p0i1`, input port 1 of the first
/// coupled model, `p0o1`, its output port 1, each where something leads to it or leaves from it; `inputs`, where there
/// are inputs. Coupled models are the clusters `cluster_0` and on, each before those in it. The same value gives the same
/// bytes.
///
/// The text is made whole, and then written. Refused by [`NotWritten::OutOfMemory`] (4) where a growth of memory was
/// refused, and then nothing is written; by [`NotWritten::WriteFailed`] (24) where the writer failed, and then only the
/// writer knows what it took.
pub fn write_dot<W: Write>(alloc: Global, file: &Value, out: &mut W) -> Result<(), NotWritten>
    ensures unwritten { IfErr result (λ e. e ≡ NotWritten.OutOfMemory → out.new ≡ out.old) }
{
    let Ok(text) = dot_of(alloc, file) else {
        return Err(NotWritten::OutOfMemory);
    };
    match out.write_all(text.as_bytes()) {
        Ok(()) => Ok(()),
        Err(_) => Err(NotWritten::WriteFailed),
    }
}

/// The graph of a file.
fn dot_of(alloc: Global, file: &Value) -> Result<String, AllocError> {
    let mut tree = Tree::new(alloc, file)?;
    let wires = wires_of(alloc, &mut tree)?;
    count_inputs(&mut tree, file);
    let mut text = String::from_str(alloc, HEAD)?;
    push_components(&mut text, &tree)?;
    push_couplings(&mut text, &tree, &wires)?;
    push_inputs(&mut text, &tree)?;
    text.push_str("}\n")?;
    Ok(text)
}
