//! Networks as trees of coupled models, and how such a tree is let go.

use std::mem;

/// An end of a coupling in a coupled model: the model itself, or one of its parts.
#[derive(Clone, Copy, Debug, PartialEq, Eq, Hash)]
pub enum End {
    /// The coupled model itself: as a source an input port of it, as a destination an output port of it.
    Here,
    /// One of its parts, by its place from 0.
    Part(usize),
}

/// A coupling in a coupled model: source, its port, destination, its port.
pub type Link = (End, u8, End, u8);

/// A part of a coupled model.
#[cycle(nested)]
#[derive(Drop)]
pub enum Part<M> {
    /// An atomic model.
    Atom(M),
    /// A coupled model.
    Coupled(Nested<M>),
}

/// A coupled model (Chow and Zeigler 1994): its parts, each with a name, and its couplings.
///
/// It may be at fault: whoever makes a network of it is told so. Dropping it goes down by calls, so a tree of very
/// many levels is dropped by [`dismantle`].
#[cycle(nested)]
#[derive(Drop)]
pub struct Nested<M> {
    /// The parts by name, in order.
    pub parts: Vec<(String, Part<M>)>,
    /// The couplings, in order.
    pub couplings: Vec<Link>,
}

/// Lets a tree go by a loop, however many levels it has. It takes no memory.
///
/// Where the parts of a part come next, the parts around are hung below them, in the place of the one that
/// was taken out.
pub fn dismantle<M: Drop>(nested: Nested<M>) {
    let mut here = nested.parts;
    let mut hand = here.pop();
    for _ in 0..u64::MAX {
        let Some((name, part)) = hand else {
            return;
        };
        hand = match part {
            Part::Atom(_) => here.pop(),
            Part::Coupled(inner) => {
                let mut parts = inner.parts;
                match parts.pop() {
                    None => here.pop(),
                    Some(next) => {
                        mem::swap(&mut here, &mut parts);
                        if !parts.is_empty() {
                            let around = Nested {
                                parts,
                                couplings: inner.couplings,
                            };
                            hang(&mut here, name, around);
                        }
                        Some(next)
                    }
                }
            }
        };
    }
}

// Puts a model first among parts that have room for it.
fn hang<M: Drop>(here: &mut Vec<(String, Part<M>)>, name: String, around: Nested<M>) {
    let _ = here.push((name, Part::Coupled(around)));
    let len = here.len();
    if len > 0 {
        here.swap(0, len - 1);
    }
}
