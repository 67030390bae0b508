//! A stave: a part of the time, and where it is drawn.

use crate::layout::Layout;
use std::alloc::Global;
use tw_svg::{Points, Time};

/// A part of the time, as it is drawn.
#[derive(Clone, Copy)]
pub(crate) struct Stave<'a> {
    /// Where the memory of outlines and words comes from.
    pub alloc: Global,
    /// Where all stands.
    pub layout: &'a Layout,
    /// The first of its rounds.
    pub first: usize,
    /// The round after its last one.
    pub next: usize,
    /// The top of its lanes.
    pub base: Points,
    /// Where it begins on the axis.
    pub left: Points,
    /// Where it ends on the axis.
    pub right: Points,
    /// Where its lines begin.
    pub start: Points,
    /// Where its lines end.
    pub end: Points,
    /// Where a place at the beginning of the axis would stand.
    origin: Points,
}

impl<'a> Stave<'a> {
    /// A stave of a layout, by its number, that begins with a round.
    pub fn new(
        alloc: Global,
        layout: &'a Layout,
        number: usize,
        left: Points,
        first: usize,
    ) -> Stave<'a> {
        let right = layout.stave_end(number);
        let count = i64::try_from(number).unwrap_or(0);
        let is_last = number.saturating_add(1) >= layout.staves.len();
        let origin = layout.gutter + layout.edge - left;
        let behind = if is_last { layout.edge } else { Points::ZERO };
        let next = layout.next_round(first, right);
        Stave {
            alloc,
            layout,
            first,
            next,
            base: layout.stave_height().times(count) + layout.lead(),
            left,
            right,
            start: layout.gutter,
            end: origin + right + behind,
            origin,
        }
    }

    /// Whether a place on the axis is in the stave.
    pub fn has(&self, at: Points) -> bool {
        !at.is_below(self.left) && at.is_below(self.right)
    }

    /// Where a place on the axis stands.
    pub fn x(&self, at: Points) -> Points {
        self.origin + at
    }
}

/// A fault on a lane: where, when, and its line.
#[derive(Clone, Copy)]
pub(crate) struct ShownFault<'a> {
    /// The lane.
    pub lane: usize,
    /// The time.
    pub time: Time,
    /// What is told of it.
    pub line: &'a str,
}
