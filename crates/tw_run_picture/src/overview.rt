//! What is kept of a run of any length: the course of a figure in each lane, in columns.

use crate::lanes::Lanes;
use crate::tracks::Track;
use std::alloc::{AllocError, Global};
use tw_msgs::{Record, RecordKind};

/// How many columns all lanes have together at most, where each has its least number.
const COLUMNS: usize = 2_000_000;

/// A component that is shown.
#[derive(Drop)]
pub(crate) struct OverviewLane {
    /// Its number.
    pub component: usize,
    /// Its name.
    pub name: String,
    /// The figure that is shown of it.
    pub track: Option<Track>,
}

/// What is kept of a run.
#[derive(Drop)]
pub(crate) struct Overview {
    /// The tick from which on it is shown.
    pub from: u64,
    /// The lanes.
    pub lanes: Vec<OverviewLane>,
    /// How many records there were from then on.
    pub records: u64,
    // The lane of each component, if it has one.
    places: Vec<Option<usize>>,
    // How many columns a lane has at most.
    room: usize,
}

impl Overview {
    /// Nothing taken yet, in lanes whose plots are so many points wide.
    pub fn new(
        alloc: Global,
        lanes: &Lanes,
        from: u64,
        wide: usize,
    ) -> Result<Overview, AllocError> {
        let share = COLUMNS.checked_div(lanes.len()).unwrap_or(COLUMNS);
        let mut overview = Overview {
            from,
            lanes: Vec::new(alloc),
            records: 0,
            places: lanes.places_of_all(alloc)?,
            room: wide.saturating_mul(2).min(share.max(wide / 2)).max(2),
        };
        for lane in lanes.items.as_slice() {
            let track = match &lane.course {
                Some(course) => {
                    let name = course.name.clone()?;
                    Some(Track::new(alloc, name, course.measure, course.first))
                }
                None => None,
            };
            overview.lanes.push(OverviewLane {
                component: lane.component,
                name: lane.name.clone()?,
                track,
            })?;
        }
        Ok(overview)
    }

    /// The lane of a component, if it is shown.
    pub fn of(&self, component: usize) -> Option<usize> {
        *self.places.get(component)?
    }

    /// Takes the records of a round.
    pub fn take(&mut self, records: &[Record]) -> Result<(), AllocError> {
        for record in records {
            if let Some(place) = self.of(record.component) {
                if !record.stamp.is_end() {
                    self.take_one(place, record, record.stamp.tick())?;
                }
            }
        }
        Ok(())
    }

    /// Takes a record of a lane at a tick.
    fn take_one(&mut self, place: usize, record: &Record, tick: u64) -> Result<(), AllocError> {
        let is_shown = tick >= self.from;
        if is_shown {
            self.records = self.records.saturating_add(1);
        }
        if record.kind == RecordKind::Out {
            return Ok(());
        }
        let Some(lane) = self.lanes.get_mut(place) else {
            return Ok(());
        };
        match &mut lane.track {
            Some(track) => {
                let value = track.measure.value(&record.words);
                if is_shown {
                    track.take(value, tick.saturating_sub(self.from), self.room)
                } else {
                    track.begin(value);
                    Ok(())
                }
            }
            None => Ok(()),
        }
    }

    /// The run ends before a tick.
    pub fn end(&mut self, tick: u64) -> Result<(), AllocError> {
        let time = tick.saturating_sub(self.from);
        for lane in self.lanes.iter_mut() {
            if let Some(track) = &mut lane.track {
                track.stand_until(time, self.room)?;
            }
        }
        Ok(())
    }
}
