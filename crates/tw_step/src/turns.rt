//! The transitions of a component.

ghost use Rattle.std.specs.Prelude.{◌≡◌, ◌↔◌, ◌-◌, ◌<◌, ◌≤◌, ◌==◌, [], true, Err, IfOk, IfErr, IsOk};
ghost use Rattle.tw_step.specs.Steps.{CanMove, IsPassedAs};
ghost use Rattle.tw_step.specs.Turns.{IsDueBy, IsRefusedBy, next_own};
ghost use Rattle.tw_theory.specs.Transitions.{turn, kind_of};
ghost use Rattle.tw_vtime.specs.Stamps.{max_microstep, never, phase_of, tick_of};

use crate::moment::Moment;
use crate::refused::TurnRefused;
use std::alloc::{AllocError, Global};
use tw_atomic::{Atomic, Turn};
use tw_msgs::{RecordKind, Words};
use tw_vtime::{Limit, Stamp, advance};

/// Which turn a component makes, and the kind of its record: external where it is not imminent; else internal with an
/// empty bag, confluent with any other.
pub fn turn_of(imminent: bool, empty: bool) -> (Turn, RecordKind)
    ensures turn { (bag : _) → (empty ≡ true ↔ (bag ≡ [])) → result.0 ≡ turn imminent bag }
    ensures kind { result.1 ≡ kind_of result.0 }
{
    match (imminent, empty) {
        (false, _) => (Turn::Ext, RecordKind::Ext),
        (true, true) => (Turn::Int, RecordKind::Int),
        (true, false) => (Turn::Con, RecordKind::Con),
    }
}

/// A turn that is due.
#[derive(Clone, Copy, Debug)]
pub(crate) struct DueTurn {
    /// Which turn it is.
    pub(crate) turn: Turn,
    /// The kind of its record.
    pub(crate) kind: RecordKind,
    /// How many ticks have elapsed since the last transition.
    pub(crate) elapsed: u64,
}

/// The turn that a component makes at a stamp with this bag.
pub(crate) fn due_turn<S: Drop>(now: &Moment<S>, stamp: Stamp, bag: &[(u8, i64)]) -> DueTurn
    requires is_due { stamp < never }
    requires last { now.now.last < never }
    ensures turn { result.turn ≡ turn (now.now.due == stamp) bag.now }
    ensures kind { result.kind ≡ kind_of (turn (now.now.due == stamp) bag.now) }
    ensures elapsed { result.elapsed ≡ tick_of stamp - tick_of now.now.last }
{
    let (turn, kind) = turn_of(now.due == stamp, bag.is_empty());
    DueTurn {
        turn,
        kind,
        elapsed: stamp.tick().saturating_sub(now.last.tick()),
    }
}

/// Makes the transition at this stamp with this bag, and keeps nothing that takes it back: for a component whose
/// transitions stand. Answers the kind of its record, or the limit (2 or 3) that its next own step would pass.
///
/// Refused for want of memory alone (4). After a limit or a refusal `now` is of no more use.
pub fn pass_turn<M: Atomic>(
    alloc: Global,
    model: &M,
    now: &mut Moment<M::State>,
    stamp: Stamp,
    bag: &[(u8, i64)],
    micro_limit: u32,
) -> Result<Result<RecordKind, Limit>, AllocError>
    requires is_due { stamp < never }
    requires is_transition { phase_of stamp ≡ 1 }
    requires last { now.old.last < never }
    requires limit { micro_limit ≤ max_microstep }
    requires can_move { CanMove (M.valid model.now) (M.meaning model.now) now.old stamp bag.now }
    ensures passed { IfOk result
        (IsPassedAs (M.meaning model.now) micro_limit now.old stamp bag.now now.new) }
    ensures valid { IfOk result (λ passed. IsOk passed → M.valid model.now now.new.state) }
{
    let DueTurn {
        turn,
        kind,
        elapsed,
    } = due_turn(now, stamp, bag);
    model.transition(alloc, &mut now.state, turn, elapsed, bag)?;
    match next_due(model, &now.state, stamp, micro_limit) {
        Ok(due) => {
            now.last = stamp.output();
            now.due = due;
            Ok(Ok(kind))
        }
        Err(limit) => Ok(Err(limit)),
    }
}

/// The next own step in a state after a transition of this stamp, or the end, or the limit that it would pass.
fn next_due<M: Atomic>(
    model: &M,
    state: &M::State,
    stamp: Stamp,
    micro_limit: u32,
) -> Result<Stamp, Limit>
    requires is_due { stamp < never }
    requires is_transition { phase_of stamp ≡ 1 }
    requires limit { micro_limit ≤ max_microstep }
    ensures due { IfOk result
        (IsDueBy (next_own (M.meaning model.now) state.now stamp micro_limit)) }
    ensures met { IfErr result
        (λ limit. next_own (M.meaning model.now) state.now stamp micro_limit ≡ Err limit) }
{
    let due = advance(stamp, model.ta(state), micro_limit)?;
    Ok(due.unwrap_or(Stamp::END))
}

/// The words of a state, and its next own step after a transition of this stamp. The limit is looked at first.
pub(crate) fn told<M: Atomic>(
    alloc: Global,
    model: &M,
    state: &M::State,
    stamp: Stamp,
    micro_limit: u32,
) -> Result<(Words, Stamp), TurnRefused>
    requires is_due { stamp < never }
    requires is_transition { phase_of stamp ≡ 1 }
    requires limit { micro_limit ≤ max_microstep }
    ensures words { IfOk result (λ told. told.0 ≡ (M.meaning model.now).words state.now) }
    ensures due { IfOk result
        (λ told. IsDueBy (next_own (M.meaning model.now) state.now stamp micro_limit) told.1) }
    ensures refused { IfErr result
        (IsRefusedBy (next_own (M.meaning model.now) state.now stamp micro_limit)) }
{
    let due = next_due(model, state, stamp, micro_limit)?;
    let mut words = Vec::new(alloc);
    model.words(alloc, state, &mut words)?;
    Ok((Words::from(words), due))
}
