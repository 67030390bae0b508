//! What is kept of a run.

use crate::lanes::Lanes;
use crate::takers::{Arrow, Sendings};
use std::alloc::{AllocError, Global};
use tw_atomic::Atomic;
use tw_msgs::{Record, RecordKind};
use tw_network::Network;
use tw_svg::{Time, short};
use tw_texts::push_record;
use tw_vtime::{MAX_TICK, Stamp};

/// How many marks a picture has at most.
pub(crate) const MARKS: usize = 20_000;

/// How many arrows a picture has at most.
pub(crate) const ARROWS: usize = 20_000;

/// A record that is shown.
#[derive(Drop)]
pub(crate) struct Mark {
    /// Its lane.
    pub lane: usize,
    /// What the component did.
    pub kind: RecordKind,
    /// Its line of the trace, in at most 200 letters.
    pub title: String,
    /// Whether it took more items than those that are shown sent to it.
    pub outside: bool,
}

/// The records of a time.
#[derive(Drop)]
pub(crate) struct Round {
    /// The time.
    pub time: Time,
    /// The records, outputs first.
    pub marks: Vec<Mark>,
    /// The arrows among them.
    pub arrows: Vec<Arrow>,
}

/// What is kept of a run: the rounds that are shown.
#[derive(Drop)]
pub(crate) struct Kept {
    /// The tick from which on records are shown.
    pub from: u64,
    /// The lanes.
    pub lanes: Lanes,
    /// The rounds.
    pub rounds: Vec<Round>,
    /// How many records there are.
    pub marks: usize,
    /// How many arrows there are.
    pub arrows: usize,
    /// How many arrows are left out.
    pub lost: u64,
    /// The ticks between records of a lane at different ticks.
    pub gaps: Vec<u64>,
    /// Whether the picture ends before the run.
    pub goes_on: bool,
    sendings: Sendings,
}

/// The time of a stamp.
pub(crate) fn time_of(stamp: Stamp) -> Time {
    if stamp.is_end() {
        return Time {
            tick: MAX_TICK,
            micro: 0,
        };
    }
    Time {
        tick: stamp.tick(),
        micro: stamp.micro(),
    }
}

/// The line of a record in little room.
fn title_of(alloc: Global, name: &str, record: &Record) -> Result<String, AllocError> {
    let mut line = String::new(alloc);
    push_record(&mut line, name, record)?;
    short(alloc, line.as_str().trim_end())
}

impl Kept {
    /// Nothing kept yet.
    pub fn new(alloc: Global, lanes: Lanes, from: u64) -> Result<Kept, AllocError> {
        let sendings = Sendings::new(alloc, lanes.len())?;
        Ok(Kept {
            from,
            lanes,
            rounds: Vec::new(alloc),
            marks: 0,
            arrows: 0,
            lost: 0,
            gaps: Vec::new(alloc),
            goes_on: false,
            sendings,
        })
    }

    /// How many of these records are of lanes.
    fn count_shown(&self, records: &[Record]) -> usize {
        let mut count = 0usize;
        for record in records {
            if self.lanes.of(record.component).is_some() {
                count = count.saturating_add(1);
            }
        }
        count
    }

    /// Takes the records of a round, unless the marks would be too many: then the picture ends before it, and the answer is that.
    pub fn take<M: Atomic>(
        &mut self,
        alloc: Global,
        network: &Network<M>,
        records: &[Record],
    ) -> Result<bool, AllocError> {
        let Some(first) = records.first() else {
            return Ok(false);
        };
        let time = time_of(first.stamp);
        if time.tick < self.from {
            self.follow(records, None)?;
            return Ok(false);
        }
        let count = self.count_shown(records);
        if count == 0 {
            return Ok(false);
        }
        if self.marks.saturating_add(count) > MARKS {
            self.goes_on = true;
            return Ok(true);
        }
        self.marks = self.marks.saturating_add(count);
        let number = self.rounds.len();
        self.follow(records, Some(number))?;
        self.keep(alloc, network, records, time)?;
        Ok(false)
    }

    /// The figures of the components that made transitions.
    fn follow(&mut self, records: &[Record], round: Option<usize>) -> Result<(), AllocError> {
        for record in records {
            if record.kind != RecordKind::Out {
                if let Some(place) = self.lanes.of(record.component) {
                    self.follow_one(place, record, round)?;
                }
            }
        }
        Ok(())
    }

    fn follow_one(
        &mut self,
        place: usize,
        record: &Record,
        round: Option<usize>,
    ) -> Result<(), AllocError> {
        let Some(lane) = self.lanes.items.get_mut(place) else {
            return Ok(());
        };
        match &mut lane.course {
            Some(course) => course.take(&record.words, round),
            None => Ok(()),
        }
    }

    /// Notes the tick of a lane's record, and the gap before it.
    fn note_tick(&mut self, place: usize, tick: u64) -> Result<(), AllocError> {
        let Some(lane) = self.lanes.items.get_mut(place) else {
            return Ok(());
        };
        let before = lane.last_tick;
        lane.last_tick = Some(tick);
        match before {
            Some(before) if before < tick => {
                self.gaps.push(tick.saturating_sub(before))?;
                Ok(())
            }
            _ => Ok(()),
        }
    }

    /// Keeps a round.
    fn keep<M: Atomic>(
        &mut self,
        alloc: Global,
        network: &Network<M>,
        records: &[Record],
        time: Time,
    ) -> Result<(), AllocError> {
        let mut round = Round {
            time,
            marks: Vec::new(alloc),
            arrows: Vec::new(alloc),
        };
        self.sendings.begin(&self.lanes, records);
        for record in records {
            let Some(place) = self.lanes.of(record.component) else {
                continue;
            };
            self.note_tick(place, time.tick)?;
            if record.kind == RecordKind::Out {
                let room = ARROWS.saturating_sub(self.arrows);
                let left = self.sendings.send(
                    network,
                    &self.lanes,
                    place,
                    record,
                    room,
                    &mut round.arrows,
                )?;
                self.arrows = self.arrows.saturating_add(left.drawn);
                self.lost = self.lost.saturating_add(left.lost);
            }
            self.add_mark(alloc, &mut round, place, record)?;
        }
        self.rounds.push(round)?;
        Ok(())
    }

    /// A mark more.
    fn add_mark(
        &self,
        alloc: Global,
        round: &mut Round,
        place: usize,
        record: &Record,
    ) -> Result<(), AllocError> {
        let Some(lane) = self.lanes.items.get(place) else {
            return Ok(());
        };
        let takes = record.kind == RecordKind::Ext || record.kind == RecordKind::Con;
        let outside = takes && self.sendings.sent_to(place) < record.bag.len();
        let title = title_of(alloc, lane.name.as_str(), record)?;
        round.marks.push(Mark {
            lane: place,
            kind: record.kind,
            title,
            outside,
        })?;
        Ok(())
    }
}
