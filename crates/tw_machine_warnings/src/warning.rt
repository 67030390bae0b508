//! A warning: where, and what is odd there.
ghost use Rattle.std.specs.Prelude.{◌≡◌, ◌++◌, IfOk, OnOk, map, string_bytes};
ghost use Rattle.tw_machine_warnings.specs.Warning.{line_of, lines_of, warning, where_so, words};

use std::alloc::{AllocError, Global};

/// What is odd.
#[derive(Clone, Copy, Debug, PartialEq, Eq)]
pub enum Kind {
    /// A random number is read, and none is drawn.
    NeverDraws,
    /// The random numbers of a component start as those of one before it.
    SameStart,
    /// A name is nowhere read.
    NotRead,
    /// A register or a queue is read, and nowhere set.
    NotSet,
    /// `t[random(n)]`, where t has another number of places.
    RandomIndex,
    /// An index that is a number, and no place of what it is the index of.
    IndexPast,
    /// A port that is a number, and none of 0 to 15.
    PortPast,
    /// `value` or `left`, where it is always 0.
    AlwaysZero,
    /// A machine that has something to do and never steps by itself.
    NeverSteps,
    /// One that steps by itself once, by its first wait, and then never.
    StepsOnce,
    /// A timer without a first tick that nothing starts.
    NeverRuns,
    /// Two `wait`s in one block.
    TwoWaits,
    /// A `wait` by a number that is negative.
    NegativeWait,
    /// A coupling from a port on which nothing is ever sent.
    SilentPort,
    /// A coupling to a machine without `external`.
    NoExternal,
    /// A component that sends on a port that is coupled to nothing.
    NotCoupled,
}

/// A warning.
#[derive(Drop)]
pub struct Warning {
    /// Where, as faults name places: `models[1] "pool": internal`.
    pub place: String,
    pub kind: Kind,
}

impl Kind {
    /// Words for it.
    pub fn words(self) -> &'static str
        ensures { result.now ≡ words self }
    {
        match self {
            Kind::NeverDraws => {
                "a random number is read, and none is drawn: it is the same each time"
            }
            Kind::SameStart => "its random numbers start as those of a component before it",
            Kind::NotRead => "it is nowhere read",
            Kind::NotSet => "it is nowhere set",
            Kind::RandomIndex => {
                "its index is a random number below another number than it has places"
            }
            Kind::IndexPast => "an index is outside it: it is its first or its last place",
            Kind::PortPast => "no item is sent on this port: ports are 0 to 15",
            Kind::AlwaysZero => "\"value\" or \"left\" is always 0 here",
            Kind::NeverSteps => {
                "it never steps by itself: it has no first wait, and no \"wait\" in external"
            }
            Kind::StepsOnce => {
                "it steps by itself once alone: it has no \"wait\" in internal and external"
            }
            Kind::NeverRuns => "it never runs: it has no \"first\", and nothing starts it",
            Kind::TwoWaits => "one \"wait\" stands behind another, and the last counts",
            Kind::NegativeWait => "a \"wait\" by a negative number is one by 0",
            Kind::SilentPort => "on this port nothing is ever sent",
            Kind::NoExternal => "its receiver has no external: what comes does nothing",
            Kind::NotCoupled => "it sends on a port that is coupled to nothing",
        }
    }
}

/// Adds a warning where something is so.
///
/// Refused for want of memory (4).
pub fn add_where(
    alloc: Global,
    warnings: &mut Vec<Warning>,
    is_so: bool,
    place: &str,
    kind: Kind,
) -> Result<(), AllocError>
    ensures { OnOk result (map warning warnings.new.items
        ≡ map warning warnings.old.items ++ where_so is_so place.now kind) }
{
    if is_so {
        let place = String::from_str(alloc, place)?;
        warnings.push(Warning { place, kind })?;
    }
    Ok(())
}

/// The line of a warning: `warning: PLACE: WORDS`, with its newline.
fn line_of(alloc: Global, one: &Warning) -> Result<String, AllocError>
    ensures { IfOk result (λ line. string_bytes line ≡ line_of (warning one.now)) }
{
    let words = one.kind.words();
    format!(in alloc; "warning: {}: {words}\n", one.place)
}

/// The lines of warnings, in order; each ends with a newline.
///
/// Refused for want of memory (4).
pub fn lines_of(alloc: Global, warnings: &[Warning]) -> Result<String, AllocError>
    ensures { IfOk result (λ lines. string_bytes lines ≡ lines_of (map warning warnings.now)) }
{
    let mut lines = String::new(alloc);
    for one in warnings {
        let line = line_of(alloc, one)?;
        lines.push_str(line.as_str())?;
    }
    Ok(lines)
}
