//! The next own step of a component, and the limits that it may not pass.

ghost use Rattle.std.specs.Prelude.{◌≡◌, ◌≢◌, ◌≤◌};
ghost use Rattle.tw_vtime.specs.Stamps.{max_microstep, never, phase_of};
ghost use Rattle.tw_vtime.specs.Refusals.{limit_refusal};
ghost use Rattle.tw_vtime.specs.Advance.{advanced};

use crate::refusal::Refusal;
use crate::stamps::{MAX_TICK, Stamp};
use thiserror::Error;

/// The limit that the next own step of a component would pass.
#[derive(Clone, Copy, Debug, PartialEq, Eq, Error)]
pub enum Limit {
    /// The network's greatest microstep: refusal 2.
    #[error("the next step is past the greatest microstep")]
    Microstep,
    /// The greatest tick of a stamp: refusal 3.
    #[error("the next step is past the greatest tick")]
    Tick,
}

impl From<Limit> for Refusal {
    ghost from_gives = { λ limit refusal. refusal ≡ limit_refusal limit };

    fn from(limit: Limit) -> Refusal {
        match limit {
            Limit::Microstep => Refusal::Microstep,
            Limit::Tick => Refusal::Tick,
        }
    }
}

/// When a component has its next own step after its transition at `at`. `ta` is its time advance in ticks:
///
/// - `None` (passive): it has none.
/// - 0: the output of the next microstep of the same tick.
/// - d > 0: the output of microstep 0 of the tick d later.
///
/// Refused by [`Limit::Microstep`] (2) where that microstep is above `micro_limit`, and by [`Limit::Tick`] (3) where
/// that tick is above [`MAX_TICK`].
pub fn advance(at: Stamp, ta: Option<u64>, micro_limit: u32) -> Result<Option<Stamp>, Limit>
    requires not_end { at ≢ never }
    requires after_transition { phase_of at ≡ 1 }
    requires limit_in_range { micro_limit ≤ max_microstep }
    ensures { result ≡ advanced at ta micro_limit }
{
    let Some(wait) = ta else {
        return Ok(None);
    };
    let tick = at.tick();
    if wait == 0 {
        let micro = at.micro() + 1;
        if micro > micro_limit {
            return Err(Limit::Microstep);
        }
        let next = Stamp::new(tick, micro, 0).map_err(|_| Limit::Microstep)?;
        return Ok(Some(next));
    }
    if wait > MAX_TICK - tick {
        return Err(Limit::Tick);
    }
    let next = Stamp::new(tick + wait, 0, 0).map_err(|_| Limit::Tick)?;
    Ok(Some(next))
}
