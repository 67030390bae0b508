//! The course of a figure over any time in little memory: its least, greatest and mean value in columns of equal width.

use std::alloc::{AllocError, Global};
use tw_figures::Measure;

/// What is known of a figure in the time of a column.
#[derive(Clone, Copy)]
pub(crate) struct Column {
    /// The least value.
    pub least: i128,
    /// The greatest value.
    pub greatest: i128,
    /// Each value times the ticks that it stood, added up.
    pub sum: i128,
    /// The ticks that are added up.
    pub ticks: u64,
}

impl Column {
    /// A column in which the figure had this value, for no tick yet.
    fn of(value: i128) -> Column {
        Column {
            least: value,
            greatest: value,
            sum: 0,
            ticks: 0,
        }
    }

    /// The figure had this value.
    fn meet(&mut self, value: i128) {
        self.least = self.least.min(value);
        self.greatest = self.greatest.max(value);
    }

    /// The figure had this value for so many ticks.
    fn stand(&mut self, value: i128, ticks: u64) {
        self.meet(value);
        self.sum = self
            .sum
            .saturating_add(value.saturating_mul(i128::from(ticks)));
        self.ticks = self.ticks.saturating_add(ticks);
    }

    /// A column becomes as wide as itself and the one behind it.
    fn join(&mut self, next: &Column) {
        self.least = self.least.min(next.least);
        self.greatest = self.greatest.max(next.greatest);
        self.sum = self.sum.saturating_add(next.sum);
        self.ticks = self.ticks.saturating_add(next.ticks);
    }
}

/// The course of a figure, in columns that become wider as the run goes on. Times are ticks after the beginning of the picture.
#[derive(Drop)]
pub(crate) struct Track {
    /// What the figure is called.
    pub name: String,
    /// What it tells of the words of a state.
    pub measure: Measure,
    /// How many ticks wide a column is.
    pub width: u64,
    /// The columns so far.
    pub columns: Vec<Column>,
    // The present value, and since when it is not added up.
    value: i128,
    since: u64,
}

impl Track {
    /// The course of a figure that has this value where the picture begins.
    pub fn new(alloc: Global, name: String, measure: Measure, value: i128) -> Track {
        Track {
            name,
            measure,
            width: 1,
            columns: Vec::new(alloc),
            value,
            since: 0,
        }
    }

    /// The least and the greatest value that is shown.
    pub fn extremes(&self) -> (i128, i128) {
        let mut least = self.value;
        let mut greatest = self.value;
        for column in self.columns.as_slice() {
            least = least.min(column.least);
            greatest = greatest.max(column.greatest);
        }
        (least, greatest)
    }

    /// The figure has this value before the picture begins.
    pub fn begin(&mut self, value: i128) {
        self.value = value;
    }

    /// The figure has this value from a time on, in at most so many columns.
    pub fn take(&mut self, value: i128, time: u64, room: usize) -> Result<(), AllocError> {
        if value == self.value {
            return Ok(());
        }
        self.stand_until(time, room)?;
        self.value = value;
        self.widen_for(time, room);
        let place = self.place_of(time);
        let column = self.column(place)?;
        column.meet(value);
        Ok(())
    }

    /// The present value stands up to a time.
    pub fn stand_until(&mut self, time: u64, room: usize) -> Result<(), AllocError> {
        if time <= self.since {
            return Ok(());
        }
        let last = time.saturating_sub(1);
        self.widen_for(last, room);
        let value = self.value;
        for place in self.place_of(self.since)..self.place_of(last).saturating_add(1) {
            let begin = self.begin_of(place).max(self.since);
            let end = self.begin_of(place.saturating_add(1)).min(time);
            let column = self.column(place)?;
            column.stand(value, end.saturating_sub(begin));
        }
        self.since = time;
        Ok(())
    }

    /// The place of the column of a time.
    fn place_of(&self, time: u64) -> usize {
        let place = time.checked_div(self.width).unwrap_or(0);
        usize::try_from(place).unwrap_or(usize::MAX)
    }

    /// Where a column begins.
    pub fn begin_of(&self, place: usize) -> u64 {
        u64::try_from(place)
            .unwrap_or(u64::MAX)
            .saturating_mul(self.width)
    }

    /// Makes columns twice as wide until a time is in one of so many.
    fn widen_for(&mut self, time: u64, room: usize) {
        for _ in 0..64 {
            if self.place_of(time) < room.max(1) {
                break;
            }
            self.widen();
        }
    }

    /// Makes columns twice as wide.
    fn widen(&mut self) {
        self.width = self.width.saturating_mul(2);
        let mut made = 0usize;
        let mut place = 0usize;
        for _ in 0..self.columns.len() {
            let Some(mut column) = self.columns.get(place).copied() else {
                break;
            };
            if let Some(next) = self.columns.get(place.saturating_add(1)) {
                column.join(next);
            }
            if let Some(slot) = self.columns.get_mut(made) {
                *slot = column;
            }
            made = made.saturating_add(1);
            place = place.saturating_add(2);
        }
        self.columns.truncate(made);
    }

    /// The column at a place, which is there or is the next one.
    fn column(&mut self, place: usize) -> Result<&mut Column, AllocError> {
        if place >= self.columns.len() {
            self.columns.push(Column::of(self.value))?;
        }
        let last = self.columns.len().saturating_sub(1);
        self.columns.get_mut(place.min(last)).ok_or(AllocError)
    }
}
