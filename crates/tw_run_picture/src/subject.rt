//! What a picture is of.

use tw_figures::View;

/// What a picture of a run is of.
#[derive(Clone, Copy, Debug)]
pub struct Subject<'a> {
    /// What the picture is called.
    pub title: &'a str,
    /// The end tick of the run.
    pub until: u64,
    /// What part of the run is shown, and how.
    pub view: &'a View<'a>,
}
