//! What is seen of a run, as plain data. Actions are numbered from 1, components from 0.

use std::alloc::Global;
use tw_exec::Action;
use tw_inspect::Reply;
use tw_msgs::Item;
use tw_script::Command;
use tw_vtime::Stamp;

/// As many actions are watched.
pub const MOST_ACTIONS: usize = 2_000;

/// An action, a mark or a rewind, and what was replied.
#[derive(Clone, Copy, Debug)]
pub struct Acted {
    /// What was to be done: no `Show` and no `Describe`.
    pub command: Command,
    /// What was replied.
    pub reply: Reply,
    /// Where the action's component stood then, where it has one.
    pub place: Option<Stamp>,
}

impl Acted {
    /// The component that it is for; none of a rise, a mark and a rewind.
    pub fn component(&self) -> Option<usize> {
        match self.command {
            Command::Act(action) => component_of(action),
            _ => None,
        }
    }

    /// Whether it was refused.
    pub fn is_refused(&self) -> bool {
        matches!(self.reply, Reply::Refused(_))
    }
}

/// The component that an action is for.
pub(crate) fn component_of(action: Action) -> Option<usize> {
    match action {
        Action::Step(component)
        | Action::Post(component)
        | Action::Deliver(component, _)
        | Action::Back(component, _)
        | Action::Harvest(component) => Some(component),
        Action::Raise => None,
    }
}

/// A step.
#[derive(Clone, Copy, Debug)]
pub struct Stepped {
    /// The place of its action among [`Seen::actions`].
    pub action: usize,
    /// The component that made it.
    pub component: usize,
    /// Its stamp.
    pub stamp: Stamp,
    /// Whether it was undone later.
    pub undone: bool,
}

impl Stepped {
    /// Whether it is an output.
    pub fn is_output(&self) -> bool {
        !self.stamp.is_end() && self.stamp.is_output()
    }
}

/// Why steps were undone.
#[derive(Clone, Copy, Debug, PartialEq, Eq)]
pub enum Cause {
    /// A message came for a time that was past.
    Straggler,
    /// The anti-message of a message that was taken came.
    AntiMessage,
    /// They were taken back by hand: by Back, or by a rewind.
    Back,
}

/// A rollback: the fall of a component.
#[derive(Clone, Copy, Debug)]
pub struct Fallen {
    /// The place of its action among [`Seen::actions`].
    pub action: usize,
    /// The component that fell.
    pub component: usize,
    /// Why.
    pub cause: Cause,
    /// The stamp of the last step that is not undone; none before the first.
    pub to: Option<Stamp>,
    /// The least stamp that is undone: of the steps, and of the straggler.
    pub least: Stamp,
    /// How many steps were undone.
    pub undone: usize,
    /// How many falls of the same action came before it: of a rewind more than one component falls.
    pub rank: usize,
}

/// A change of where a component stands.
#[derive(Clone, Copy, Debug, PartialEq, Eq)]
pub enum Move {
    /// The step at this place of [`Seen::steps`].
    Step(usize),
    /// The rollback at this place of [`Seen::falls`].
    Fall(usize),
}

/// Where an item comes from.
#[derive(Clone, Copy, Debug)]
pub struct Sending {
    /// The place of the action that made it: a step, a rollback, or the Post that settled what was owed.
    pub action: usize,
    /// The sender.
    pub component: usize,
    /// The stamp of the step that made it; none of an anti-message.
    pub step: Option<Stamp>,
}

/// A message or an anti-message in a mailbox, or one that was there.
#[derive(Clone, Copy, Debug)]
pub struct Carried {
    /// The message, and its sign.
    pub item: Item,
    /// Where it comes from.
    pub sending: Sending,
    /// The place of the action that delivered it, where one did.
    pub delivered: Option<usize>,
}

/// A rise of global virtual time.
#[derive(Clone, Copy, Debug)]
pub struct Risen {
    /// The place of its action among [`Seen::actions`].
    pub action: usize,
    /// Global virtual time from then on.
    pub gvt: Stamp,
}

/// A harvest that committed a record or more.
#[derive(Clone, Copy, Debug)]
pub struct Committed {
    /// The place of its action among [`Seen::actions`].
    pub action: usize,
    /// The component.
    pub component: usize,
    /// The commit line before.
    pub from: Stamp,
    /// The commit line from then on.
    pub to: Stamp,
}

/// What is seen of a run. Each list is in the order in which things happened.
#[derive(Debug, Drop)]
pub struct Seen {
    /// The actions. Elsewhere an action is told by its place here, from 0.
    pub actions: Vec<Acted>,
    /// The steps.
    pub steps: Vec<Stepped>,
    /// The rollbacks that undid a step or more.
    pub falls: Vec<Fallen>,
    /// The steps and the rollbacks.
    pub moves: Vec<Move>,
    /// What was delivered, and after it what lies in the mailboxes at the end.
    pub messages: Vec<Carried>,
    /// The rises of global virtual time, and what left it where it was.
    pub rises: Vec<Risen>,
    /// What was committed.
    pub commits: Vec<Committed>,
    /// Where each component stands at the end: at the stamp of its last step that is not undone.
    pub ends: Vec<Option<Stamp>>,
    /// Whether there were more actions than are watched; those were not played.
    pub goes_on: bool,
}

impl Seen {
    /// Nothing yet.
    pub(crate) fn new(alloc: Global) -> Seen {
        Seen {
            actions: Vec::new(alloc),
            steps: Vec::new(alloc),
            falls: Vec::new(alloc),
            moves: Vec::new(alloc),
            messages: Vec::new(alloc),
            rises: Vec::new(alloc),
            commits: Vec::new(alloc),
            ends: Vec::new(alloc),
            goes_on: false,
        }
    }
}
