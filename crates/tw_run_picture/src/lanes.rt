//! Lanes: the components that are shown, and the courses of their figures.

ghost use Rattle.std.specs.Prelude.{◌≡◌, ◌<◌, length};

use std::alloc::{AllocError, Global};
use tw_atomic::Atomic;
use tw_figures::{Figure, Labels, Measure, View};
use tw_msgs::Words;
use tw_network::Network;
use tw_texts::Names;

/// A value of a figure, from a round that is shown on.
#[derive(Clone, Copy)]
pub(crate) struct Change {
    /// The place of the round among those that are shown.
    pub round: usize,
    /// The value.
    pub value: i128,
}

/// How a figure goes.
#[derive(Drop)]
pub(crate) struct Course {
    /// What the figure is called.
    pub name: String,
    /// What it tells of the words of a state.
    pub measure: Measure,
    /// Its value where the picture begins.
    pub first: i128,
    /// Its last value so far.
    pub last: i128,
    /// The least value that is shown.
    pub least: i128,
    /// The greatest value that is shown.
    pub greatest: i128,
    /// Its other values, in order.
    pub changes: Vec<Change>,
}

/// A component that is shown.
#[derive(Drop)]
pub(crate) struct Lane {
    /// Its number.
    pub component: usize,
    /// Its name.
    pub name: String,
    /// The figure that is shown of it.
    pub course: Option<Course>,
    /// The tick of its last record that is shown, if one is.
    pub last_tick: Option<u64>,
}

/// The components that are shown, in their order.
#[derive(Drop)]
pub struct Lanes {
    /// The lanes.
    pub(crate) items: Vec<Lane>,
    // The lane of each component, if it has one.
    places: Vec<Option<usize>>,
}

impl Course {
    /// The course of a figure that has this value where the picture begins.
    fn new(alloc: Global, name: String, measure: Measure, first: i128) -> Course {
        Course {
            name,
            measure,
            first,
            last: first,
            least: first,
            greatest: first,
            changes: Vec::new(alloc),
        }
    }

    /// The value goes over to this one: before the picture begins, or in a round of it.
    pub fn take(&mut self, words: &Words, round: Option<usize>) -> Result<(), AllocError> {
        let value = self.measure.value(words);
        let Some(round) = round else {
            self.first = value;
            self.last = value;
            self.least = value;
            self.greatest = value;
            return Ok(());
        };
        if value == self.last {
            return Ok(());
        }
        self.last = value;
        if value < self.least {
            self.least = value;
        }
        if value > self.greatest {
            self.greatest = value;
        }
        self.changes.push(Change { round, value })?;
        Ok(())
    }
}

impl Lane {
    /// Whether the lane has a course: a figure, and a record.
    pub fn is_full(&self) -> bool {
        self.course.is_some() && self.last_tick.is_some()
    }
}

impl Lanes {
    /// The lane of a component, if it is shown.
    pub fn of(&self, component: usize) -> Option<usize> {
        *self.places.get(component)?
    }

    /// How many lanes there are.
    pub fn len(&self) -> usize {
        self.items.len()
    }

    /// The lane of each component, if it has one.
    pub fn places_of_all(&self, alloc: Global) -> Result<Vec<Option<usize>>, AllocError> {
        Vec::from_slice(alloc, self.places.as_slice())
    }
}

/// The components that have one of the names, which are parted by commas, in the order of the names, each once; all of them where
/// there are no names. None where a name is of no component.
fn chosen<M: Atomic>(
    alloc: Global,
    network: &Network<M>,
    only: Option<&str>,
) -> Result<Option<Vec<usize>>, AllocError> {
    let mut order = Vec::new(alloc);
    let Some(only) = only else {
        for component in 0..network.len() {
            order.push(component)?;
        }
        return Ok(Some(order));
    };
    let mut taken = vec![in alloc; false; network.len()]?;
    for name in only.split(',') {
        let Some(component) = network.find(name) else {
            return Ok(None);
        };
        if component < taken.len() && !taken[component] {
            taken[component] = true;
            order.push(component)?;
        }
    }
    Ok(Some(order))
}

/// A figure that is asked for.
#[derive(Clone, Copy)]
struct Choice<'a> {
    // Of which component; of each that has it where there is none.
    component: Option<usize>,
    name: &'a str,
}

impl<'a> Choice<'a> {
    /// The figure that a text asks for: behind the name of a component and `=` that of this component, else that of the whole text.
    fn of<M: Atomic>(network: &Network<M>, text: &'a str) -> Choice<'a> {
        if let Some((before, name)) = text.split_once('=') {
            if let Some(component) = network.find(before) {
                return Choice {
                    component: Some(component),
                    name,
                };
            }
        }
        Choice {
            component: None,
            name: text,
        }
    }

    /// Whether it is for a component.
    fn is_for(&self, component: usize) -> bool {
        match self.component {
            Some(own) => own == component,
            None => true,
        }
    }
}

/// The figures that are asked for, those of one component first.
fn choices_in<'a, M: Atomic>(
    alloc: Global,
    network: &Network<M>,
    figures: &[&'a str],
) -> Result<Vec<Choice<'a>>, AllocError> {
    let mut choices = Vec::new(alloc);
    let mut others = Vec::new(alloc);
    for text in figures {
        let choice = Choice::of(network, text);
        if choice.component.is_some() {
            choices.push(choice)?;
        } else {
            others.push(choice)?;
        }
    }
    choices.append(&mut others)?;
    Ok(choices)
}

/// A figure by its name.
fn figure_named<'a>(labels: &'a Labels, name: &str) -> Option<&'a Figure> {
    labels
        .figures
        .iter()
        .find(|figure| figure.name.as_str() == name)
}

/// The figure that is shown of a component: the first one asked for that it has; where none is asked for it, the last one, and of a
/// tally, whose last is `last`, its `sum`.
fn figure_of<'a>(
    labels: &'a Labels,
    component: usize,
    choices: &[Choice<'_>],
) -> Option<&'a Figure> {
    let mut is_asked = false;
    for choice in choices {
        if choice.is_for(component) {
            is_asked = true;
            let found = figure_named(labels, choice.name);
            if found.is_some() {
                return found;
            }
        }
    }
    if is_asked {
        return None;
    }
    if labels.model.as_str() == "tally" {
        return figure_named(labels, "sum");
    }
    labels.figures.last()
}

/// Whether a component that is shown has the figure that is asked for.
fn is_met(choice: &Choice<'_>, order: &[usize], labels: &[Labels]) -> bool {
    for component in order {
        if choice.is_for(*component) {
            if let Some(label) = labels.get(*component) {
                if figure_named(label, choice.name).is_some() {
                    return true;
                }
            }
        }
    }
    false
}

/// The words of the state in which a model starts.
fn start_words<M: Atomic>(alloc: Global, model: &M) -> Result<Words, AllocError> {
    let state = model.start(alloc)?;
    let mut words = Vec::new(alloc);
    model.words(alloc, &state, &mut words)?;
    Ok(Words::from(words))
}

/// The course of a component's figure, before the first record.
fn course_of<M: Atomic>(
    alloc: Global,
    model: &M,
    figure: Option<&Figure>,
) -> Result<Option<Course>, AllocError> {
    let Some(figure) = figure else {
        return Ok(None);
    };
    let words = start_words(alloc, model)?;
    let name = figure.name.clone()?;
    let first = figure.measure.value(&words);
    Ok(Some(Course::new(alloc, name, figure.measure, first)))
}

/// The lanes of the components that are shown; none where a name is of no component, or a figure of none that is shown.
pub fn lanes_of<M: Atomic, N: Names>(
    alloc: Global,
    network: &Network<M>,
    names: &N,
    labels: &[Labels],
    view: &View<'_>,
) -> Result<Option<Lanes>, AllocError>
    requires { length labels.now ≡ length network.now.models }
{
    let Some(order) = chosen(alloc, network, view.only)? else {
        return Ok(None);
    };
    let choices = choices_in(alloc, network, view.figures.as_slice())?;
    for choice in choices.as_slice() {
        if !is_met(choice, order.as_slice(), labels) {
            return Ok(None);
        }
    }
    let mut lanes = Lanes {
        items: Vec::new(alloc),
        places: vec![in alloc; None; network.len()]?,
    };
    for component in order.as_slice() {
        if let Some(label) = labels.get(*component) {
            let figure = figure_of(label, *component, choices.as_slice());
            let course = course_of(alloc, network.model(*component), figure)?;
            lanes.add(alloc, *component, names.name(*component), course)?;
        }
    }
    Ok(Some(lanes))
}

impl Lanes {
    /// A lane more.
    fn add(
        &mut self,
        alloc: Global,
        component: usize,
        name: &str,
        course: Option<Course>,
    ) -> Result<(), AllocError> {
        if component < self.places.len() {
            self.places[component] = Some(self.items.len());
        }
        self.items.push(Lane {
            component,
            name: String::from_str(alloc, name)?,
            course,
            last_tick: None,
        })?;
        Ok(())
    }
}
