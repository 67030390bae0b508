//! Pictures of a network's sequential run, as Scalable Vector Graphics: staves, as in a score.
//!
//! - [`draw_run`]: makes the picture of a run, of a [`Subject`], and writes it.
//! - [`DrawRefused`]: why nothing is drawn.
//!
//! The picture has one lane for each component, with time from left to right: a mark for each output and each transition, an
//! arrow from each output to each transition that took its items, and the course of a figure in each lane. Of a run with more records
//! than that has room for it has the courses alone, each as a band and a line.
//!
//! | File | Says |
//! |---|---|
//! | `drawing` | the picture, made and written ([`draw_run`]); `refused`: [`DrawRefused`] |
//! | `subject` | what it is of ([`Subject`]) |
//! | `whole` | the picture, from the run to its end |
//! | `lanes` | which components are shown, and which figure of each; `scale`: how high a course stands in its lane |
//! | `following` | the run, round by round; `watched`: which of the next two is kept of it |
//! | `kept` | its marks: at most 20,000, and 20,000 arrows; `takers`: who took what an output sent |
//! | `overview` | its courses in columns; `tracks`: the columns of one |
//! | `layout` | where marks and courses stand; `fit`: how a time with many rounds is fitted in |
//! | `heading` | the lines above the picture |
//! | `staves` | the staves, one below the other, with the ground of each; `stave`: one of them |
//! | `courses`, `marks` | in a stave, its lanes and its rounds |
//! | `overview_picture` | the picture of courses alone; `overview_layout`, `overview_lanes`: where they stand, and what is in a lane |
//! | `styles` | the style sheets |
#![tactic(auto)]

mod courses;
mod drawing;
mod fit;
mod following;
mod heading;
mod kept;
mod lanes;
mod layout;
mod marks;
mod overview;
mod overview_lanes;
mod overview_layout;
mod overview_picture;
mod refused;
mod scale;
mod stave;
mod staves;
mod styles;
mod subject;
mod takers;
mod tracks;
mod watched;
mod whole;

pub use drawing::draw_run;
pub use refused::DrawRefused;
pub use subject::Subject;
