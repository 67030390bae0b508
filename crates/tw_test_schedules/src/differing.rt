//! The lines: how much was done, and what differs from what it should be.

use std::alloc::AllocError;

/// How often something differed, and the seed and what it was at the first time.
#[derive(Clone, Copy)]
pub(crate) struct Differing {
    count: u64,
    first: Option<(u64, &'static str)>,
}

impl Differing {
    /// Nothing differed.
    pub(crate) fn new() -> Differing {
        Differing {
            count: 0,
            first: None,
        }
    }

    /// Notes whether something of a seed is as it should be.
    pub(crate) fn expect(&mut self, seed: u64, what: &'static str, holds: bool) {
        if holds {
            return;
        }
        self.count = self.count.saturating_add(1);
        if self.first.is_none() {
            self.first = Some((seed, what));
        }
    }

    /// Ends a line: with these words where nothing differed, and else with what did.
    pub(crate) fn end_line(&self, text: &mut String, right: &str) -> Result<(), AllocError> {
        match self.first {
            None => write!(text, ", {right}\n"),
            Some((seed, what)) => {
                let count = self.count;
                write!(
                    text,
                    ", DIFFERENT {count} times, first of seed {seed}: {what}\n"
                )
            }
        }
    }
}

/// Begins a line: a network, in which way, and how much was done of each kind.
pub(crate) fn begin_line(
    text: &mut String,
    name: &str,
    way: &str,
    counts: &[(u64, &str)],
) -> Result<(), AllocError> {
    write!(text, "{name} {way}")?;
    let mut before = ": ";
    for (count, of) in counts {
        add_count(text, before, *count, *of)?;
        before = ", ";
    }
    Ok(())
}

/// Adds how much was done of a kind, behind what stands before it.
fn add_count(text: &mut String, before: &str, count: u64, of: &str) -> Result<(), AllocError> {
    text.push_str(before)?;
    write!(text, "{count}")?;
    text.push_str(of)
}
