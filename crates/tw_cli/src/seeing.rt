//! What is seen of a run: the lines of a table, and a picture.

ghost use Rattle.std.specs.Prelude.{IfOk, IfSome, IfNone, IsTrue, IsFalse};
ghost use Rattle.clap.specs.Words.{rows_of, found_of};
ghost use Rattle.tw_cli.specs.Options.{IsDetailIn, IsFromIn, IsPictureIn, IsRowsIn, IsStartIn, IsTabledIn, IsUndriven, IsUnseen, IsViewIn, IsWidthIn};

use crate::driving::{Driver, cancel_in, driver_in, is_driven};
use crate::values::{flag_in, has, number_in, text_in, texts_in};
use clap::ArgMatches;
use std::alloc::{AllocError, Global};
use tw_actions::Cancel;
use tw_figures::{Detail, Rows, Tabled, USUAL_WIDTH, View};
use tw_vtime::MAX_TICK;

/// What a picture is of.
#[derive(Debug, PartialEq, Eq, Drop)]
pub enum Picture<'a> {
    /// The sequential run.
    Run(View<'a>),
    /// A run of Time Warp: an executive that is driven by hand.
    Warp {
        /// How steps that are taken back are cancelled.
        cancel: Cancel,
        /// What drives it.
        driver: Driver<'a>,
    },
}

/// What a table is of, among the options.
pub fn tabled_in(options: &ArgMatches<'_>) -> Option<Tabled>
    ensures some { IfSome result (IsTabledIn (rows_of (found_of options.now))) }
    ensures none { IfNone result ((t : _) → ¬ (IsTabledIn (rows_of (found_of options.now)) t)) }
{
    let figures = flag_in(options, "figures");
    let rows = rows_in(options)?;
    match (figures, rows) {
        (false, rows) => Some(Tabled::OfRun(rows)),
        (true, Rows::Records) => Some(Tabled::OfFigures),
        (true, Rows::Items | Rows::Words) => None,
    }
}

/// What a line of a table of records is of, among the options.
fn rows_in(options: &ArgMatches<'_>) -> Option<Rows>
    ensures some { IfSome result (IsRowsIn (rows_of (found_of options.now))) }
    ensures none { IfNone result ((r : _) → ¬ (IsRowsIn (rows_of (found_of options.now)) r)) }
{
    let items = flag_in(options, "items");
    let words = flag_in(options, "words");
    match (items, words) {
        (false, false) => Some(Rows::Records),
        (true, false) => Some(Rows::Items),
        (false, true) => Some(Rows::Words),
        (true, true) => None,
    }
}

/// Whether an option stands that says what is seen of a run.
fn is_seen(options: &ArgMatches<'_>) -> bool
    ensures yes { IsTrue result → ¬ (IsUnseen (rows_of (found_of options.now))) }
    ensures no { IsFalse result → IsUnseen (rows_of (found_of options.now)) }
{
    has(options, "from")
        || has(options, "only")
        || has(options, "figure")
        || has(options, "width")
        || flag_in(options, "marks")
        || flag_in(options, "courses")
}

/// The tick from which on figures are told, among the options; none where that is left out.
pub fn start_in(options: &ArgMatches<'_>) -> Option<Option<u64>>
    ensures some { IfSome result (IsStartIn (rows_of (found_of options.now))) }
    ensures none { IfNone result ((o : _) → ¬ (IsStartIn (rows_of (found_of options.now)) o)) }
{
    if !has(options, "from") {
        return Some(None);
    }
    let from = number_in(options, "from", 0, MAX_TICK)?;
    Some(Some(from))
}

/// The tick from which on a run is seen, among the options.
pub(crate) fn from_in(options: &ArgMatches<'_>) -> Option<u64>
    ensures some { IfSome result (IsFromIn (rows_of (found_of options.now))) }
    ensures none { IfNone result ((n : _) → ¬ (IsFromIn (rows_of (found_of options.now)) n)) }
{
    if !has(options, "from") {
        return Some(0);
    }
    number_in(options, "from", 0, MAX_TICK)
}

/// How wide a picture is, among the options.
fn width_in(options: &ArgMatches<'_>) -> Option<u64>
    ensures some { IfSome result (IsWidthIn (rows_of (found_of options.now))) }
    ensures none { IfNone result ((n : _) → ¬ (IsWidthIn (rows_of (found_of options.now)) n)) }
{
    if !has(options, "width") {
        return Some(USUAL_WIDTH);
    }
    number_in(options, "width", 600, 4000)
}

/// What a picture is made of, among the options.
pub fn detail_in(options: &ArgMatches<'_>) -> Option<Detail>
    ensures some { IfSome result (IsDetailIn (rows_of (found_of options.now))) }
    ensures none { IfNone result ((d : _) → ¬ (IsDetailIn (rows_of (found_of options.now)) d)) }
{
    let marks = flag_in(options, "marks");
    let courses = flag_in(options, "courses");
    match (marks, courses) {
        (false, false) => Some(Detail::Fitting),
        (true, false) => Some(Detail::Marks),
        (false, true) => Some(Detail::Courses),
        (true, true) => None,
    }
}

/// What is seen of a run, among the options.
fn view_in<'a>(alloc: Global, options: &ArgMatches<'a>) -> Result<Option<View<'a>>, AllocError>
    ensures some { IfOk result (λ o. IfSome o (IsViewIn (rows_of (found_of options.now)))) }
    ensures none { let rows = rows_of (found_of options.now) in
        IfOk result (λ o. IfNone o ((v : _) → ¬ (IsViewIn rows v))) }
{
    let Some(from) = from_in(options) else {
        return Ok(None);
    };
    let Some(width) = width_in(options) else {
        return Ok(None);
    };
    let Some(detail) = detail_in(options) else {
        return Ok(None);
    };
    let only = text_in(options, "only");
    let figures = Vec::from_slice(alloc, texts_in(options, "figure").unwrap_or(&[]))?;
    Ok(Some(View {
        from,
        only,
        figures,
        width,
        detail,
    }))
}

/// A picture of Time Warp among the options, where some stand for what drives an executive.
fn warp_in<'a>(options: &ArgMatches<'a>) -> Option<Picture<'a>>
    ensures some { IfSome result (IsPictureIn (rows_of (found_of options.now))) }
    ensures none { let rows = rows_of (found_of options.now) in
        ¬ (IsUndriven rows) → IfNone result ((p : _) → ¬ (IsPictureIn rows p)) }
{
    if is_seen(options) {
        return None;
    }
    let cancel = cancel_in(options)?;
    let driver = driver_in(options)?;
    Some(Picture::Warp { cancel, driver })
}

/// What a picture is of, among the options.
pub fn picture_in<'a>(
    alloc: Global,
    options: &ArgMatches<'a>,
) -> Result<Option<Picture<'a>>, AllocError>
    ensures some { IfOk result (λ o. IfSome o (IsPictureIn (rows_of (found_of options.now)))) }
    ensures none { let rows = rows_of (found_of options.now) in
        IfOk result (λ o. IfNone o ((p : _) → ¬ (IsPictureIn rows p))) }
{
    if is_driven(options) {
        return Ok(warp_in(options));
    }
    match view_in(alloc, options)? {
        Some(view) => Ok(Some(Picture::Run(view))),
        None => Ok(None),
    }
}
