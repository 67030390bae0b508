//! What a line of a script can say.

use tw_actions::Action;

/// What a line of a script says. Components are known by their numbers.
#[derive(Clone, Copy, Debug, PartialEq, Eq)]
pub enum Command {
    /// An action of the executive: `step p`, `post p`, `deliver q i`, `back p s`, `raise` or `harvest p`.
    Act(Action),
    /// `mark`: where every component stands now is kept, in place of an earlier mark.
    Mark,
    /// `rewind`: every component goes back to where it stood at the mark.
    Rewind,
    /// `show`: the report of the executive.
    Show,
    /// `show p`: the description of a component.
    Describe(usize),
}
