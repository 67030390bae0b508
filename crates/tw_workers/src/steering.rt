//! How far components run ahead: a run steers itself by what was lost.

use tw_vtime::Stamp;

// How many chains in a row go well before a component's reach grows: at first and at least, and at most.
const LEAST_NEED: u64 = 4;

const GREATEST_NEED: u64 = 256;

// How many steps there are between two looks at the window.
const STEPS_BETWEEN_LOOKS: u64 = 256;

// How many steps there are at least before a window that is in the way grows.
const STEPS_BEFORE_GROWTH: u64 = 16;

// From how many pending messages of a component on the window does not grow.
const CROWD: usize = 4_096;

/// The tick of a stamp, beyond all ticks for the end.
pub(crate) fn tick_of(stamp: Stamp) -> u64 {
    if stamp.is_end() {
        u64::MAX
    } else {
        stamp.tick()
    }
}

/// How far the chains of a component go, and how the last ones went.
#[derive(Clone, Copy)]
pub(crate) struct Pace {
    // How many ticks from its next step on a chain goes; 0 where it is one step.
    reach: u64,
    // How many chains in a row went well, and how many have to.
    well: u64,
    need: u64,
    // Where the last chain began, and where the component stood after it.
    first: Stamp,
    last: Stamp,
}

/// What became of a chain.
#[derive(Clone, Copy)]
pub(crate) struct Ending {
    /// How many steps it had, and how many of them were installed.
    pub(crate) made: u64,
    pub(crate) installed: u64,
    /// Whether it ended because its next step was beyond its bound.
    pub(crate) at_bound: bool,
    /// Where the component stands then: its next step, and its last.
    pub(crate) next: Stamp,
    pub(crate) last: Stamp,
    /// Whether the window would have ended it too.
    pub(crate) at_edge: bool,
}

impl Pace {
    /// One step at a time.
    pub(crate) fn new() -> Pace {
        Pace {
            reach: 0,
            well: 0,
            need: LEAST_NEED,
            first: Stamp::START,
            last: Stamp::START,
        }
    }

    /// How many ticks from its next step on a chain goes; 0 where it is one step.
    pub(crate) fn reach(&self) -> u64 {
        self.reach
    }

    /// A chain begins, at the component's next step; and where it stood last.
    pub(crate) fn begin(&mut self, next: Stamp, last: Stamp) {
        self.look_back(last);
        self.first = next;
        self.last = last;
    }

    /// A chain is handed in. Answers whether the window was in the way.
    pub(crate) fn end(&mut self, ending: &Ending) -> bool {
        self.look_back(ending.last);
        self.last = ending.last;
        if ending.installed < ending.made {
            if ending.installed > 0 {
                self.lose();
            }
            return false;
        }
        if ending.made == 0 || !ending.at_bound {
            return false;
        }
        self.well = self.well.saturating_add(1);
        if self.well < self.need {
            return false;
        }
        if ending.at_edge {
            return true;
        }
        self.grow(ending.next);
        false
    }

    /// Where the component stands before the end of its last chain, steps of it were taken back since. It went too far, unless all of
    /// its steps were at one time: these would have been taken back in any case.
    fn look_back(&mut self, last: Stamp) {
        let ahead = self.last.pack() / 2 > self.first.pack() / 2;
        if last < self.last && ahead {
            self.lose();
        }
    }

    /// It may go further: at least twice as far, and as far as the last chain went.
    fn grow(&mut self, next: Stamp) {
        self.well = 0;
        self.need = (self.need / 2).max(LEAST_NEED);
        self.reach = if self.reach == 0 {
            1
        } else {
            let went = tick_of(next).saturating_sub(tick_of(self.first));
            self.reach.saturating_mul(2).max(went.saturating_add(1))
        };
    }

    /// It went too far.
    fn lose(&mut self) {
        self.reach /= 2;
        self.well = 0;
        self.need = self.need.saturating_mul(2).min(GREATEST_NEED);
    }
}

/// How many ticks after that of global virtual time components may run ahead, and what was lost since that was last looked at.
#[derive(Clone, Copy)]
pub(crate) struct Window {
    ticks: u64,
    greatest: u64,
    // How many steps went well, and how many were made in vain.
    well: u64,
    lost: u64,
    // Whether a wider one would have given more to do, and whether a component has so much to come that it had better not be.
    in_the_way: bool,
    crowded: bool,
}

impl Window {
    /// A window of so many ticks, which may become as wide as this.
    pub(crate) fn new(ticks: u64, greatest: u64) -> Window {
        Window {
            ticks: ticks.min(greatest),
            greatest,
            well: 0,
            lost: 0,
            in_the_way: false,
            crowded: false,
        }
    }

    /// How many ticks it has.
    pub(crate) fn ticks(&self) -> u64 {
        self.ticks
    }

    /// So many steps went well, and so many were made in vain, with so many messages to come.
    pub(crate) fn count(&mut self, well: u64, lost: u64, pending: usize) {
        self.well = self.well.saturating_add(well);
        self.lost = self.lost.saturating_add(lost);
        self.crowded |= pending >= CROWD;
    }

    /// How many it may have at most.
    pub(crate) fn greatest(&self) -> u64 {
        self.greatest
    }

    /// A wider one would have given more to do.
    pub(crate) fn was_in_the_way(&mut self) {
        self.in_the_way = true;
    }

    /// After so many steps the window becomes narrower where more than one in six was made in vain, and wider where less than one in
    /// twelve was and it was in the way; wider much sooner, so that a window which began too narrow soon is not.
    pub(crate) fn steer(&mut self) {
        let all = self.well.saturating_add(self.lost);
        let grows = self.in_the_way && self.lost < all / 12;
        if all < STEPS_BETWEEN_LOOKS && !(grows && all >= STEPS_BEFORE_GROWTH) {
            return;
        }
        if self.lost > all / 6 {
            self.ticks /= if self.lost > self.well { 4 } else { 2 };
        } else if grows && !self.crowded {
            self.ticks = self.ticks.saturating_mul(2).max(1).min(self.greatest);
        }
        self.well = 0;
        self.lost = 0;
        self.in_the_way = false;
        self.crowded = false;
    }
}
