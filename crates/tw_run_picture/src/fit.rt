//! How wide time is drawn.

use tw_svg::{Axis, Points, Spread, Unit};

/// About how high a picture may become.
const TALLEST: i64 = 12_000;

/// What decides how wide time is drawn.
#[derive(Clone, Copy)]
pub(crate) struct Fit {
    /// The width of a page.
    pub room: Points,
    /// The width that a round wants.
    pub pitch: Points,
    /// The gap between records of a lane than which nine of ten are no less.
    pub tight: u64,
    /// The height of a stave.
    pub height: Points,
    /// How many rounds there are.
    pub rounds: usize,
}

impl Fit {
    /// Time drawn so wide.
    fn spread(&self, unit: Unit) -> Spread {
        Spread {
            unit,
            slot: self.pitch + Points::whole(3),
            room: self.room,
        }
    }

    /// How long an axis may be, so that the picture is not too high, nor mostly empty.
    fn longest(&self) -> Points {
        let stave = self.height + Points::whole(52);
        let staves = Points::whole(TALLEST)
            .tenths()
            .checked_div(stave.tenths())
            .unwrap_or(1);
        let rounds = i64::try_from(self.rounds).unwrap_or(i64::MAX);
        let busy = self.pitch.times(4).times(rounds);
        self.room.times(staves.max(1)).least(self.room.most(busy))
    }

    /// Lays an axis: nine of ten gaps have room for a round; a short run fills its page; a picture does not grow without end; and
    /// no last stave has a few ticks alone. Answers the width of such a gap.
    pub fn lay(&self, axis: &mut Axis) -> Points {
        let full = Unit::new(Points::whole(56), 1);
        let wanted = Unit::new(self.pitch, self.tight);
        let begun = if full.is_below(wanted) { full } else { wanted };
        let wide = self.widen(axis, begun, full);
        let narrow = self.narrow(axis, wide);
        let unit = self.even(axis, narrow);
        axis.lay(&self.spread(unit));
        unit.length(self.tight)
    }

    /// A wider unit, while all fits the page.
    fn widen(&self, axis: &mut Axis, begun: Unit, full: Unit) -> Unit {
        let mut unit = begun;
        for _ in 0..400 {
            let more = unit.hundredths(105);
            if !unit.is_below(full) || !axis.lay(&self.spread(more)).is_below(self.room) {
                break;
            }
            unit = more;
        }
        unit
    }

    /// A narrower unit, while the picture would be too high.
    fn narrow(&self, axis: &mut Axis, begun: Unit) -> Unit {
        let longest = self.longest();
        let mut unit = begun;
        for _ in 0..400 {
            let length = axis.lay(&self.spread(unit));
            if !longest.is_below(length) {
                break;
            }
            let far = longest.times(2).is_below(length);
            unit = unit.hundredths(if far { 50 } else { 97 });
        }
        unit
    }

    /// A narrower unit, while a last stave would have little.
    fn even(&self, axis: &mut Axis, begun: Unit) -> Unit {
        let mut unit = begun;
        let length = axis.lay(&self.spread(unit));
        let staves = (length - self.room.share(35, 100)).parts(self.room).max(1);
        let wanted = (self.room - self.pitch.times(2)).times(staves);
        for _ in 0..100 {
            let narrow = !self.pitch.share(6, 10).is_below(unit.length(self.tight));
            if narrow || !wanted.is_below(axis.lay(&self.spread(unit))) {
                break;
            }
            unit = unit.hundredths(97);
        }
        unit
    }
}
