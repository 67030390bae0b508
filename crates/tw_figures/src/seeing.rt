//! What is seen of a run: the lines of a table, and what a picture shows.

/// What a line of a table is of.
#[derive(Clone, Copy, Debug, PartialEq, Eq)]
pub enum Rows {
    /// A record, with its items and its words.
    Records,
    /// An item of a record.
    Items,
    /// A word of a record of a transition.
    Words,
}

/// What a table is of.
#[derive(Clone, Copy, Debug, PartialEq, Eq)]
pub enum Tabled {
    /// The records of a run.
    OfRun(Rows),
    /// The figures of its components, each time that one changed.
    OfFigures,
}

/// What a picture of a run is made of.
#[derive(Clone, Copy, Debug, PartialEq, Eq)]
pub enum Detail {
    /// A mark for each record and the course of a figure in each lane, where the whole run has room for that; else courses alone.
    Fitting,
    /// Marks and courses, as far as there is room for marks.
    Marks,
    /// Courses alone, of the whole run.
    Courses,
}

/// How wide a picture is where no width is asked for, in points.
pub const USUAL_WIDTH: u64 = 1280;

/// What part of a run is seen, and how.
#[derive(Debug, PartialEq, Eq, Drop)]
pub struct View<'a> {
    /// The tick from which on it is seen, 0 to 1,099,511,627,774.
    pub from: u64,
    /// The names of the components that are seen, parted by commas, in the order of their lanes; all of them, in order, where there
    /// is none.
    pub only: Option<&'a str>,
    /// The figures whose courses are seen: of each component that has it the one with this name, or behind the name of a component
    /// and `=` that of this component alone. Where there is none, the last figure of each, of a tally its `sum`.
    pub figures: Vec<&'a str>,
    /// How wide the picture is at most, 600 to 4,000 points.
    pub width: u64,
    /// What it is made of.
    pub detail: Detail,
}
