//! Scalable Vector Graphics, as pictures of runs need them: a text that grows, made of shapes, words and a style sheet for
//! light and dark.
//!
//! - `points`: [`Points`] and [`Spot`], lengths and places with one decimal, without floating point.
//! - `svg`: [`Svg`], the text of a picture, element by element, with escaped words.
//! - `sheet`: [`Sheet`], the style sheet.
//! - `outline`: [`Path`], the outline of a shape. `shapes`: discs, corners, crosses and heads of arrows as such outlines.
//! - `axis`: [`Axis`], virtual time along a line: ticks with several microsteps open, long silences are cut; [`round_step`].
//! - `unit`: [`Unit`], how many points a tick takes.
//! - `front`: [`Front`], what stands above a picture: its title, facts, how to read it, and faults.
//! - `legend`: [`Legend`], samples of what is in a picture, with words.
//! - `words`: [`cut`], [`short`], [`tick_text`], [`value_text`], [`many`] and [`width_of`], names, lines and numbers in
//!   little room.
//!
//! No call looks outside: the same calls give the same bytes. What grows a text can be refused for want of memory (4)
//! alone, and then the text is of no more use.
#![tactic(auto)]

mod axis;
mod front;
mod legend;
mod outline;
mod points;
mod shapes;
mod sheet;
mod svg;
mod unit;
mod words;

pub use axis::{Axis, GAP, Spread, Stop, Time, round_step};
pub use front::Front;
pub use legend::Legend;
pub use outline::Path;
pub use points::{Points, Spot};
pub use sheet::{Sheet, push_sheet};
pub use svg::{Svg, plain_law};
pub use unit::Unit;
pub use words::{cut, many, push_number, short, tick_text, value_text, width_of};
