//! What is gathered of one component.

ghost use Rattle.std.specs.Prelude.{◌≡◌, ◌≢◌, ◌++◌, ◌∷◌, [], ℕ, ℤ, List, IfOk, OnOk, map};
ghost use Rattle.std.specs.List.{All};
ghost use Rattle.tw_figures.specs.Figures.{IsCourse, IsNext};
ghost use Rattle.tw_figures.specs.Gathered.{IsMember, followed_in, followed_of};
ghost use Rattle.tw_figures.specs.Observed.{IsWatch};
ghost use Rattle.tw_msgs.specs.declared.record.Record.{Record as TheRecord};
ghost use Rattle.tw_vtime.specs.Stamps.{never, tick_of};

use crate::counts::Counts;
use crate::course::Course;
use crate::figure::Figure;
use crate::labels::{Labels, Observation};
use crate::watch::Watch;
use std::alloc::{AllocError, Global};
use tw_msgs::{Record, RecordKind, Words};

/// What is gathered of one component: its counts, the courses of its figures, and what its observations have added up.
#[derive(Debug, Drop)]
pub struct Member {
    /// What it did.
    pub counts: Counts,
    /// How its figures went, in their order.
    pub courses: Vec<Course>,
    /// Its observations, in their order.
    pub watches: Vec<Watch>,
}

impl Member {
    /// Nothing gathered yet from the tick `from` on, of a component with these figures and observations that starts in a state
    /// of these words.
    ///
    /// Refused for want of memory (4).
    pub fn new(
        alloc: Global,
        from: u64,
        labels: &Labels,
        words: &Words,
    ) -> Result<Member, AllocError>
        ensures member { IfOk result (IsMember from words.now []) }
        ensures followed { IfOk result (λ m. followed_of m ≡ followed_in labels.now) }
    {
        Ok(Member {
            counts: Counts::none(),
            courses: courses_of(alloc, from, labels.figures.as_slice(), words)?,
            watches: watches_of(alloc, labels.observations.as_slice(), words)?,
        })
    }

    /// Takes the next record of the component, of which is told from the tick `from` on.
    ///
    /// Refused for want of room (4) where a count or a sum would pass the range of its type; then it is of no more use.
    pub fn take(&mut self, from: u64, step: &Record) -> Result<(), AllocError>
        requires { step.now.stamp ≢ never }
        ensures member { (start : List ℤ) (records : List TheRecord)
            → IsNext records step.now → IsMember from start records self.old
            → OnOk result (IsMember from start (records ++ step.now ∷ []) self.new) }
        ensures followed { followed_of self.new ≡ followed_of self.old }
    {
        self.counts.take_from(from, step)?;
        match step.kind {
            RecordKind::Out => Ok(()),
            RecordKind::Int | RecordKind::Ext | RecordKind::Con => {
                let tick = step.stamp.tick();
                watch_on(self.watches.as_mut_slice(), from, tick, &step.words);
                go_on(self.courses.as_mut_slice(), tick, &step.words)
            }
        }
    }
}

/// The courses of figures before any transition, from a tick on. Refused for want of memory (4).
fn courses_of(
    alloc: Global,
    from: u64,
    figures: &[Figure],
    words: &Words,
) -> Result<Vec<Course>, AllocError>
    ensures courses { IfOk result (λ courses. All (IsCourse from words.now []) courses.items) }
    ensures measures { IfOk result
        (λ courses. map (λ c. c.measure) courses.items ≡ map (λ f. f.measure) figures.now) }
{
    let mut courses = Vec::new(alloc);
    for figure in figures {
        courses.push(Course::new(from, figure.measure, words))?;
    }
    Ok(courses)
}

/// Observations before any transition. Refused for want of memory (4).
fn watches_of(
    alloc: Global,
    observations: &[Observation],
    words: &Words,
) -> Result<Vec<Watch>, AllocError>
    ensures watches { (from : ℕ)
        → IfOk result (λ watches. All (IsWatch from words.now []) watches.items) }
    ensures places { IfOk result
        (λ watches. map (λ w. w.place) watches.items ≡ map (λ o. o.place) observations.now) }
{
    let mut watches = Vec::new(alloc);
    for observation in observations {
        watches.push(Watch::new(observation.place, words))?;
    }
    Ok(watches)
}

/// A transition at a tick, to a state of these words, as observations that count from the tick `from` on see it.
fn watch_on(watches: &mut [Watch], from: u64, tick: u64, words: &Words)
    ensures watches { (start : List ℤ) (moves : List TheRecord) (r : TheRecord)
        → tick_of r.stamp ≡ tick → r.words ≡ words.now → IsNext moves r
        → All (IsWatch from start moves) watches.old
        → All (IsWatch from start (moves ++ r ∷ [])) watches.new }
    ensures places { map (λ w. w.place) watches.new ≡ map (λ w. w.place) watches.old }
{
    for watch in watches.iter_mut() {
        watch.take(from, tick, words);
    }
}

/// A transition at a tick, to a state of these words.
fn go_on(courses: &mut [Course], tick: u64, words: &Words) -> Result<(), AllocError>
    ensures courses { (from : ℕ) (start : List ℤ) (moves : List TheRecord) (r : TheRecord)
        → tick_of r.stamp ≡ tick → r.words ≡ words.now → IsNext moves r
        → All (IsCourse from start moves) courses.old
        → OnOk result (All (IsCourse from start (moves ++ r ∷ [])) courses.new) }
    ensures measures { map (λ c. c.measure) courses.new ≡ map (λ c. c.measure) courses.old }
{
    for course in courses.iter_mut() {
        course.take(tick, words)?;
    }
    Ok(())
}
