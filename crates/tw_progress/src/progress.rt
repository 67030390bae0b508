//! How far a run is.

ghost use Rattle.std.specs.Prelude.{◌≡◌, ◌≤◌, Some};
ghost use Rattle.tw_theory.specs.Board.{AtMost};
ghost use Rattle.tw_progress.specs.Progress.{progress_text, tick_told};

use std::fmt;
use tw_board::Reader;
use tw_vtime::Stamp;

/// How far a run is, as its board said when it was looked at.
#[derive(Clone, Copy, Debug, PartialEq, Eq)]
pub struct Progress {
    /// The tick committed, in ticks, 0 to the end tick: what comes before it cannot change any more.
    pub tick: u64,
    /// The end tick of the run.
    pub until: u64,
    /// How many records are committed.
    pub records: u64,
}

impl Progress {
    /// Looks at the board of a run that ends at a tick. The tick committed is that of global virtual time, and the end tick where
    /// global virtual time is past it: no run is told to be further than its end.
    pub fn look(reader: &mut Reader, until: u64) -> Progress
        ensures tick { result.tick ≡ tick_told reader.new.numbers.0 until }
        ensures until { result.until ≡ until }
        ensures within { result.tick ≤ until }
        ensures records { result.records ≡ reader.new.numbers.1 }
        ensures board { reader.new.board ≡ reader.old.board }
        ensures rises { AtMost reader.old.numbers reader.new.numbers }
    {
        let (gvt, records) = reader.see();
        Progress {
            tick: committed_tick(gvt, until),
            until,
            records,
        }
    }
}

/// The tick up to which a run is committed at a global virtual time.
fn committed_tick(gvt: Stamp, until: u64) -> u64
    ensures { result ≡ tick_told gvt until }
{
    if gvt.is_end() {
        until
    } else {
        gvt.tick().min(until)
    }
}

/// As `tick 12 of 40, 345 records`.
impl fmt::Display for Progress {
    ghost output = { λ p. Some (progress_text p.tick p.until p.records) };

    fn fmt<W: fmt::Write>(&self, f: &mut fmt::Formatter<W>) -> fmt::Result {
        let Progress {
            tick,
            until,
            records,
        } = *self;
        write!(f, "tick {tick} of {until}, {records} records")
    }
}
