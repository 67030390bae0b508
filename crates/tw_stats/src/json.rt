//! A report as one line of JSON.

ghost use Rattle.std.specs.Prelude.{◌≡◌, ◌≢◌, ◌++◌, ◌∷◌, [], OnOk, codes, decimal, flat_map, map, nat_lt, string_bytes, if◌then◌else◌};
ghost use Rattle.std.specs.Fmt.{signed_decimal};
ghost use Rattle.std.specs.Option.{option_map_or};
ghost use Rattle.tw_stats.specs.Gathering.{BeforeEnd};
ghost use Rattle.tw_stats.specs.Decimals.{thousandths_text};
ghost use Rattle.tw_stats.specs.Json.{counts_members, fault_json, fault_members, figure_json, observation_json, report_json, row_json, time_members};
ghost use Rattle.tw_stats.specs.Rows as plain;
ghost use Rattle.tw_stats.specs.Strings.{array_text, behind_comma, member, quoted, with_commas};
ghost use Rattle.tw_texts.specs.Texts.{limit_text};
ghost use Rattle.tw_vtime.specs.Stamps.{never};

use crate::decimals::add_thousandths;
use crate::report::Report;
use crate::rows::Row;
use crate::strings::add_string;
use std::alloc::AllocError;
use tw_figures::{Counts, Observed, Told};
use tw_rounds::Fault;
use tw_texts::Names;
use tw_vtime::{Limit, Stamp};

/// Adds a report to a text, with a newline at the end. Where memory is wanting (refusal 4) a part of it may stand at the end.
pub(crate) fn add_json<N: Names>(
    text: &mut String,
    report: &Report,
    names: &N,
    rows: &[Row<'_>],
) -> Result<(), AllocError>
    requires { BeforeEnd report.now.fault }
    ensures { let said = map plain.row rows.now in
        OnOk result (string_bytes text.new ≡ string_bytes text.old
        ++ report_json (N.name_of names.now) said report.now) }
{
    add_first(text, report.from, report.until)?;
    add_count(text, "records", report.records)?;
    add_count(text, "microsteps", report.microsteps)?;
    text.push_str(",\"components\":[")?;
    add_rows(text, rows, report.ticks)?;
    text.push_str("]")?;
    add_end(text, names, report.fault)?;
    text.push_str("}\n")?;
    Ok(())
}

/// The beginning, with the tick from which on is told, where one was asked for, and the end tick.
fn add_first(text: &mut String, from: Option<u64>, until: u64) -> Result<(), AllocError>
    ensures { OnOk result (string_bytes text.new
        ≡ string_bytes text.old ++ (codes "{" ++ with_commas (time_members from until))) }
{
    match from {
        Some(from) => write!(text, "{{\"from\":{from},\"until\":{until}"),
        None => write!(text, "{{\"until\":{until}"),
    }
}

/// The components, with commas between.
fn add_rows(text: &mut String, rows: &[Row<'_>], ticks: u64) -> Result<(), AllocError>
    ensures { OnOk result (string_bytes text.new ≡ string_bytes text.old
        ++ with_commas (map (row_json ticks) (map plain.row rows.now))) }
{
    for (place, row) in rows.iter().enumerate() {
        add_comma(text, place)?;
        add_row(text, row, ticks)?;
    }
    Ok(())
}

/// A component.
fn add_row(text: &mut String, row: &Row<'_>, ticks: u64) -> Result<(), AllocError>
    ensures { OnOk result
        (string_bytes text.new ≡ string_bytes text.old ++ row_json ticks (plain.row row.now)) }
{
    text.push_str("{\"name\":")?;
    add_string(text, row.name)?;
    text.push_str(",\"model\":")?;
    add_string(text, row.model)?;
    add_counts(text, row.counts)?;
    text.push_str(",\"figures\":[")?;
    add_figures(text, row.figures.as_slice(), ticks)?;
    text.push_str("],\"observations\":[")?;
    add_observations(text, row.observations.as_slice())?;
    text.push_str("]}")?;
    Ok(())
}

/// A comma before all but the first.
fn add_comma(text: &mut String, place: usize) -> Result<(), AllocError>
    ensures { OnOk result (string_bytes text.new
        ≡ string_bytes text.old ++ (if nat_lt 0 place then codes "," else [])) }
{
    if place > 0 {
        text.push_str(",")?;
    }
    Ok(())
}

/// The counts of a component, each behind a comma.
fn add_counts(text: &mut String, counts: Counts) -> Result<(), AllocError>
    ensures { OnOk result (string_bytes text.new
        ≡ string_bytes text.old ++ flat_map behind_comma (counts_members counts)) }
{
    let Counts {
        outputs,
        sent,
        received,
        int,
        ext,
        con,
    } = counts;
    add_count(text, "outputs", outputs)?;
    add_count(text, "sent", sent)?;
    add_count(text, "received", received)?;
    add_count(text, "int", int)?;
    add_count(text, "ext", ext)?;
    add_count(text, "con", con)?;
    Ok(())
}

/// The figures of a component, with commas between.
fn add_figures(text: &mut String, figures: &[(&str, Told)], ticks: u64) -> Result<(), AllocError>
    ensures { OnOk result (string_bytes text.new ≡ string_bytes text.old
        ++ with_commas (map (figure_json ticks) (map plain.told_figure figures.now))) }
{
    for (place, (name, told)) in figures.iter().enumerate() {
        add_comma(text, place)?;
        add_figure(text, name, *told, ticks)?;
    }
    Ok(())
}

/// A figure, with the sums behind its mean and its share: each a sum over so many ticks, and these.
fn add_figure(text: &mut String, name: &str, told: Told, ticks: u64) -> Result<(), AllocError>
    ensures { OnOk result (string_bytes text.new
        ≡ string_bytes text.old ++ figure_json ticks (name.now, told)) }
{
    text.push_str("{\"name\":")?;
    add_string(text, name)?;
    add_value(text, "least", told.least)?;
    add_value(text, "greatest", told.greatest)?;
    add_value(text, "last", told.last)?;
    add_decimals(text, "mean", told.mean)?;
    add_decimals(text, "busy", told.busy)?;
    add_sum(text, "mean_of", told.sums.sum, ticks)?;
    add_part(text, "busy_of", told.sums.busy, ticks)?;
    text.push_str("}")?;
    Ok(())
}

/// The observations of a component, with commas between.
fn add_observations(text: &mut String, observations: &[(&str, Observed)]) -> Result<(), AllocError>
    ensures { OnOk result (string_bytes text.new ≡ string_bytes text.old
        ++ with_commas (map observation_json (map plain.told_observation observations.now))) }
{
    for (place, (name, told)) in observations.iter().enumerate() {
        add_comma(text, place)?;
        add_observation(text, name, *told)?;
    }
    Ok(())
}

/// An observation.
fn add_observation(text: &mut String, name: &str, told: Observed) -> Result<(), AllocError>
    ensures { OnOk result (string_bytes text.new
        ≡ string_bytes text.old ++ observation_json (name.now, told)) }
{
    text.push_str("{\"name\":")?;
    add_string(text, name)?;
    add_value(text, "count", i128::from(told.count))?;
    add_value(text, "sum", i128::from(told.sum))?;
    add_optional(text, "mean", told.mean)?;
    add_optional(text, "sd", told.deviation.map(i128::from))?;
    text.push_str("}")?;
    Ok(())
}

/// The fault that ended the run, if there is one.
fn add_end<N: Names>(text: &mut String, names: &N, fault: Option<Fault>) -> Result<(), AllocError>
    requires { BeforeEnd fault }
    ensures { OnOk result (string_bytes text.new ≡ string_bytes text.old
        ++ flat_map behind_comma (fault_members (N.name_of names.now) fault)) }
{
    match fault {
        Some(fault) => add_fault(text, names.name(fault.component), fault.stamp, fault.limit),
        None => Ok(()),
    }
}

/// The fault that ended the run, of the component of this name.
fn add_fault(text: &mut String, name: &str, at: Stamp, limit: Limit) -> Result<(), AllocError>
    requires { at ≢ never }
    ensures { OnOk result (string_bytes text.new
        ≡ string_bytes text.old
        ++ behind_comma (member (codes "fault") (fault_json name.now at limit))) }
{
    text.push_str(",\"fault\":{\"component\":")?;
    add_string(text, name)?;
    add_count(text, "tick", at.tick())?;
    add_count(text, "microstep", u64::from(at.micro()))?;
    text.push_str(",\"limit\":")?;
    add_string(text, limit_name(limit))?;
    text.push_str("}")?;
    Ok(())
}

/// A count, under its name and behind a comma.
fn add_count(text: &mut String, name: &str, count: u64) -> Result<(), AllocError>
    ensures { OnOk result (string_bytes text.new
        ≡ string_bytes text.old ++ behind_comma (member name.now (decimal count))) }
{
    write!(text, ",\"{name}\":{count}")
}

/// A value, under its name and behind a comma.
fn add_value(text: &mut String, name: &str, value: i128) -> Result<(), AllocError>
    ensures { OnOk result (string_bytes text.new
        ≡ string_bytes text.old ++ behind_comma (member name.now (signed_decimal value))) }
{
    write!(text, ",\"{name}\":{value}")
}

/// A number with three decimals, under its name and behind a comma.
fn add_decimals(text: &mut String, name: &str, number: i128) -> Result<(), AllocError>
    ensures { OnOk result (string_bytes text.new
        ≡ string_bytes text.old ++ behind_comma (member name.now (thousandths_text number))) }
{
    text.push_str(",\"")?;
    text.push_str(name)?;
    text.push_str("\":")?;
    add_thousandths(text, number)?;
    Ok(())
}

/// A number with three decimals, or null where there is none, under its name and behind a comma.
fn add_optional(text: &mut String, name: &str, number: Option<i128>) -> Result<(), AllocError>
    ensures { OnOk result
        (string_bytes text.new ≡ string_bytes text.old
        ++ behind_comma (member name.now (option_map_or thousandths_text number (codes "null")))) }
{
    match number {
        Some(number) => add_decimals(text, name, number),
        None => write!(text, ",\"{name}\":null"),
    }
}

/// A sum and the ticks that it is over, under a name and behind a comma.
fn add_sum(text: &mut String, name: &str, sum: i128, ticks: u64) -> Result<(), AllocError>
    ensures { OnOk result (string_bytes text.new ≡ string_bytes text.old
        ++ behind_comma (member name.now (array_text (signed_decimal sum ∷ decimal ticks ∷ [])))) }
{
    write!(text, ",\"{name}\":[{sum},{ticks}]")
}

/// Some of the ticks, and all of them, under a name and behind a comma.
fn add_part(text: &mut String, name: &str, some: u64, ticks: u64) -> Result<(), AllocError>
    ensures { OnOk result (string_bytes text.new ≡ string_bytes text.old
        ++ behind_comma (member name.now (array_text (decimal some ∷ decimal ticks ∷ [])))) }
{
    write!(text, ",\"{name}\":[{some},{ticks}]")
}

/// The name of a limit.
fn limit_name(limit: Limit) -> &'static str
    ensures { result.now ≡ limit_text limit }
{
    match limit {
        Limit::Microstep => "microstep",
        Limit::Tick => "tick",
    }
}
