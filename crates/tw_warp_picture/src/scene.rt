//! What is drawn, with the words that are told of it.

use crate::seen::{Acted, Seen};
use std::alloc::{AllocError, Global};
use tw_actions::Cancel;
use tw_atomic::Atomic;
use tw_exec::{Action, Executive};
use tw_inspect::push_reply;
use tw_script::Command;
use tw_svg::cut;
use tw_vtime::Stamp;

/// How many letters a name has at most.
const NAME: usize = 16;

/// A run that was watched, with names and words.
#[derive(Drop)]
pub(crate) struct Scene {
    /// What was seen.
    pub(crate) seen: Seen,
    /// The names of the components.
    names: Vec<String>,
    /// Only steps before this tick were made.
    pub(crate) until: u64,
    /// Whether steps were cancelled lazily.
    pub(crate) is_lazy: bool,
    /// The components that did something, or were to.
    pub(crate) shown: Vec<usize>,
    /// What each action says, as in a script.
    words: Vec<String>,
    /// The same with its number and its reply.
    told: Vec<String>,
}

impl Scene {
    /// What was seen of an executive.
    pub(crate) fn new<M: Atomic>(
        alloc: Global,
        executive: &Executive<M>,
        seen: Seen,
    ) -> Result<Scene, AllocError> {
        let names = names_of(alloc, executive)?;
        let shown = shown_in(alloc, &seen)?;
        let mut scene = Scene {
            seen,
            names,
            until: executive.until(),
            is_lazy: is_lazy(executive),
            shown,
            words: Vec::new(alloc),
            told: Vec::new(alloc),
        };
        scene.tell(alloc)?;
        Ok(scene)
    }

    /// Tells each action.
    fn tell(&mut self, alloc: Global) -> Result<(), AllocError> {
        for (action, acted) in self.seen.actions.iter().enumerate() {
            let words = words_of(alloc, self.names.as_slice(), acted.command)?;
            let told = told_of(alloc, action, words.as_str(), acted)?;
            self.words.push(words)?;
            self.told.push(told)?;
        }
        Ok(())
    }

    /// How many components there are.
    pub(crate) fn components(&self) -> usize {
        self.names.len()
    }

    /// The name of a component.
    pub(crate) fn name(&self, component: usize) -> &str {
        name_in(self.names.as_slice(), component)
    }

    /// The name of a component, in little room.
    pub(crate) fn short_name(&self, alloc: Global, component: usize) -> Result<String, AllocError> {
        cut(alloc, self.name(component), NAME)
    }

    /// Whether the action at a place is a rewind.
    pub(crate) fn is_rewind(&self, action: usize) -> bool {
        self.seen
            .actions
            .get(action)
            .is_some_and(|acted| acted.command == Command::Rewind)
    }

    /// What the action at a place says.
    pub(crate) fn words(&self, action: usize) -> &str {
        name_in(self.words.as_slice(), action)
    }

    /// What is told of the action at a place.
    pub(crate) fn told(&self, action: usize) -> &str {
        name_in(self.told.as_slice(), action)
    }
}

/// The number of the action at a place, as it is printed: the first is 1.
pub(crate) fn number_of(action: usize) -> usize {
    action.saturating_add(1)
}

/// The text at a place; past the last nothing.
fn name_in(texts: &[String], place: usize) -> &str {
    match texts.get(place) {
        Some(text) => text.as_str(),
        None => "",
    }
}

/// The names of the components.
fn names_of<M: Atomic>(alloc: Global, executive: &Executive<M>) -> Result<Vec<String>, AllocError> {
    let network = executive.network();
    let mut names = Vec::new(alloc);
    for component in 0..network.len() {
        names.push(String::from_str(alloc, network.name(component))?)?;
    }
    Ok(names)
}

/// Whether steps are cancelled lazily.
fn is_lazy<M: Atomic>(executive: &Executive<M>) -> bool {
    !executive.network().is_empty() && executive.contents(0).cancel() == Cancel::Lazy
}

/// The components that did something, or were to.
fn shown_in(alloc: Global, seen: &Seen) -> Result<Vec<usize>, AllocError> {
    let mut shown = Vec::new(alloc);
    for (component, end) in seen.ends.iter().enumerate() {
        if end.is_some() || is_named(seen, component) {
            shown.push(component)?;
        }
    }
    Ok(shown)
}

/// Whether an action was for a component.
fn is_named(seen: &Seen, component: usize) -> bool {
    seen.actions
        .iter()
        .any(|acted| acted.component() == Some(component))
}

/// What a command says, as the line of a script.
fn words_of(alloc: Global, names: &[String], command: Command) -> Result<String, AllocError> {
    let mut text = String::new(alloc);
    match command {
        Command::Act(action) => push_action(&mut text, names, action)?,
        Command::Mark => text.push_str("mark")?,
        Command::Rewind => text.push_str("rewind")?,
        Command::Show | Command::Describe(_) => text.push_str("show")?,
    }
    Ok(text)
}

fn push_action(text: &mut String, names: &[String], action: Action) -> Result<(), AllocError> {
    match action {
        Action::Step(component) => push_named(text, "step", name_in(names, component)),
        Action::Post(component) => push_named(text, "post", name_in(names, component)),
        Action::Deliver(component, place) => {
            push_named(text, "deliver", name_in(names, component))?;
            write!(text, " {place}")
        }
        Action::Back(component, stamp) => push_back(text, name_in(names, component), stamp),
        Action::Raise => text.push_str("raise"),
        Action::Harvest(component) => push_named(text, "harvest", name_in(names, component)),
    }
}

fn push_named(text: &mut String, word: &str, name: &str) -> Result<(), AllocError> {
    text.push_str(word)?;
    text.push_str(" ")?;
    text.push_str(name)
}

fn push_back(text: &mut String, name: &str, stamp: Stamp) -> Result<(), AllocError> {
    push_named(text, "back", name)?;
    write!(text, " {stamp}")
}

/// What is told of an action: its number, its words and its reply.
fn told_of(alloc: Global, action: usize, words: &str, acted: &Acted) -> Result<String, AllocError> {
    let number = number_of(action);
    let mut text = String::new(alloc);
    write!(&mut text, "{number}: {words} \u{2192} ")?;
    push_reply(&mut text, acted.reply)?;
    // The line ends there.
    let _ = text.pop();
    Ok(text)
}
