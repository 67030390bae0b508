//! Figures: numbers that the words of a state tell.

ghost use Rattle.std.specs.Prelude.{◌≡◌};
ghost use Rattle.tw_figures.specs.Figures.{value_of};

use tw_msgs::Words;

/// What a figure tells of the words of a state.
#[derive(Clone, Copy, Debug, PartialEq, Eq)]
pub enum Measure {
    /// The word at this place, from 0; 0 where there is none.
    Word(usize),
    /// How many words there are beyond so many: how many values a list holds that stands behind these.
    Beyond(usize),
}

/// A figure of a component: its name, and what it tells of the words of a state.
#[derive(Debug, PartialEq, Eq, Drop)]
pub struct Figure {
    /// Its name.
    pub name: String,
    /// What it tells.
    pub measure: Measure,
}

impl Measure {
    /// The value of the figure in a state of these words.
    pub fn value(self, words: &Words) -> i128
        ensures { result ≡ value_of self words.now }
    {
        match self {
            Measure::Word(place) => words.get(place).unwrap_or(0),
            Measure::Beyond(count) => words.len().saturating_sub(count) as i128,
        }
    }
}
