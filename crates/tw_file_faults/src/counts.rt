//! Counts and the greatest microstep that are out of range.

use crate::outline::Outline;
use crate::parameters::check_range;
use serde_json::Value;
use std::alloc::Global;
use tw_file_members::items_in;
use tw_machine_faults::Stop;
use tw_network::{MAX_COMPONENTS, MAX_COUPLED, MAX_COUPLINGS, MAX_INPUTS, MAX_LEVELS};
use tw_vtime::MAX_MICROSTEP;

/// Looks for a count above the most that is taken.
pub(crate) fn too_many(alloc: Global, value: &Value, outline: &Outline<'_>) -> Result<(), Stop> {
    let mut depth = 0usize;
    let mut couplings = 0usize;
    for level in &outline.levels {
        if !items_in(level.value, "components").is_empty() {
            depth = depth.max(level.depth.saturating_add(1));
        }
        couplings = couplings.saturating_add(items_in(level.value, "couplings").len());
    }
    let models = outline.levels.len().saturating_sub(1);
    check_count(alloc, depth, "levels of components", MAX_LEVELS)?;
    check_count(alloc, outline.atoms.len(), "components", MAX_COMPONENTS)?;
    check_count(alloc, models, "coupled models", MAX_COUPLED)?;
    check_count(alloc, couplings, "couplings", MAX_COUPLINGS)?;
    check_count(alloc, items_in(value, "inputs").len(), "inputs", MAX_INPUTS)?;
    let line = format!(in alloc;
        "the file: more than {MAX_COUPLINGS} couplings of the flat network"
    )?;
    Err(Stop::Fault(line))
}

/// Stops at a count that is too large.
fn check_count(alloc: Global, count: usize, of: &str, most: usize) -> Result<(), Stop> {
    if count > most {
        let line = format!(in alloc; "the file: {count} {of}, at most {most}")?;
        return Err(Stop::Fault(line));
    }
    Ok(())
}

/// Looks at the greatest microstep.
pub(crate) fn bad_limit(alloc: Global, value: &Value) -> Result<(), Stop> {
    check_range(
        alloc,
        "the file",
        value,
        "micro_limit",
        1,
        u64::from(MAX_MICROSTEP),
    )
}
