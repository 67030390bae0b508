//! What has begun, the innermost last, and how deep it is.
ghost use Rattle.std.specs.Prelude.{
  ◌≡◌,
  ◌∷◌,
  [],
  true,
  false,
  Some,
  None,
  OnOk,
  MatchOption,
  nat_lt,
  if◌then◌else◌,
};
ghost use Rattle.tw_machine_text.specs.Limits.{written_levels};
ghost use Rattle.tw_machine_text.specs.Machine.{nests, closes, demand, depth, wants, starts_timer, is_bottom};
ghost use Rattle.tw_machine_text.specs.Views.{framed, held, Gives};

use crate::binding::is_given;
use crate::dictionary::{ITEM, OWN_NAMES};
use crate::drawn::draws;
use crate::fault::Fault;
use crate::frames::Frame;
use crate::kinds::{Meaning, Member, stands_for};
use crate::limits::{MAX_LEVELS, WRITTEN_LEVELS};
use crate::tree::{Arms, SourceExpr, arity, takes_numbers};
use crate::words::{Deed, Operator, Verb};
use std::alloc::{AllocError, Global};

#[derive(Drop)]
pub(crate) struct Stack {
    frames: Vec<Frame>,
    deep: usize,
    ghost counted: { deep ≡ depth (held frames.items) },
}

/// What an operand is to stand for.
#[derive(Clone, Copy, PartialEq, Eq)]
pub(crate) enum Role {
    Value,
    Place,
    Queue,
    Observation,
    Procedure,
    Timer,
    /// Timers that are alike, by their name: the argument of `idle`.
    Timers,
    /// The first argument of a function of a queue.
    First,
    /// The argument of `length`: a queue, or a table.
    Measured,
    /// The argument of `sample`.
    Table,
    Count,
    /// A field that is given a number.
    Field,
    /// A queue alone.
    Each,
    /// An expression, a queue, an array register or an observation, alone.
    Shown,
    /// The number of a queue in an array of them, alone.
    Numbered,
}

impl Frame {
    /// Whether it counts as a level.
    fn nests(&self) -> bool
        ensures { result ≡ nests (framed self.now) }
    {
        match self {
            Frame::InNot
            | Frame::InNegative
            | Frame::InGroup
            | Frame::InIndex(_)
            | Frame::InCall(_)
            | Frame::InRandom
            | Frame::InThen(..)
            | Frame::InElseThen(..)
            | Frame::InElse(..)
            | Frame::InTurns(..) => true,
            _ => false,
        }
    }
}

impl Frame {
    /// How many levels deeper what it holds is in the core: `observe` is three statements with its number in
    /// parentheses, what stands behind the `else` of a test that draws is a block, and of timers and fields stands more.
    fn more_levels(&self) -> usize {
        match self {
            Frame::InQueue(_, Verb::Observe) | Frame::InItem(_, Verb::Observe, _) => 1,
            Frame::InCall(12 | 13 | ITEM) => 1,
            Frame::InCall(name) if *name >= OWN_NAMES => 1,
            Frame::InTicks(..) => 2,
            Frame::InElseIf(_, arms) | Frame::InElseThen(_, arms, _) => tests_that_draw(arms),
            Frame::InElse(_, arms) => match arms {
                Arms::One(..) => 0,
                Arms::More(before, _, _) => tests_that_draw(before),
            },
            _ => 0,
        }
    }
}

/// How many tests of an `if` draw.
fn tests_that_draw(arms: &Arms) -> usize {
    match arms {
        Arms::One(test, _) => { if draws(test) { 1 } else { 0 } }
        Arms::More(before, test, _) => {
            let here = if draws(test) { 1 } else { 0 };
            tests_that_draw(before).saturating_add(here)
        }
    }
}

impl Stack {
    pub fn new(alloc: Global) -> Stack
        ensures { held result.frames.items ≡ [] }
    {
        Stack {
            frames: Vec::new(alloc),
            deep: 0,
        }
    }

    /// Something begins that is no level.
    pub fn push(&mut self, frame: Frame) -> Result<(), AllocError>
        requires { nests (framed frame) ≡ false }
        ensures { OnOk result (held self.new.frames.items
            ≡ framed frame ∷ held self.old.frames.items) }
    {
        self.frames.push(frame)?;
        Ok(())
    }

    /// A level begins, if it is not too deep.
    pub fn nest(&mut self, frame: Frame) -> Result<(), Fault>
        requires { nests (framed frame) ≡ true }
        ensures { Gives (λ _. held self.new.frames.items) result
            (if nat_lt (depth (held self.old.frames.items)) written_levels
            then Some (framed frame ∷ held self.old.frames.items) else None) }
    {
        if self.deep >= WRITTEN_LEVELS {
            drop(frame);
            return Err(Fault::Wrong);
        }
        self.frames.push(frame)?;
        self.deep += 1;
        Ok(())
    }

    /// What has begun last is done.
    pub fn pop(&mut self) -> Option<Frame>
        ensures { MatchOption result (held self.old.frames.items ≡ [])
            (λ frame. held self.old.frames.items ≡ framed frame ∷ held self.new.frames.items) }
    {
        let frame = self.frames.pop()?;
        if frame.nests() {
            self.deep -= 1;
        }
        Some(frame)
    }

    /// How tightly what comes has to be bound.
    pub fn demand(&self) -> usize
        ensures { result ≡ demand (held self.now.frames.items) }
    {
        match self.frames.last() {
            None => 9,
            Some(Frame::Operand(_, operator)) => operator.rank() + 1,
            Some(Frame::InNot) => 3,
            Some(Frame::InNegative) => 7,
            Some(Frame::InCall(_) | Frame::InItem(..) | Frame::InSend(_)) => 0,
            Some(Frame::InPlace(_) | Frame::InQueue(..) | Frame::InDeed(..) | Frame::InStart(_)) =>
                9,
            Some(_) => 1,
        }
    }

    /// Whether an operand completes what has begun last, where so tightly bound operands are asked for.
    pub fn closes(&self, rank: usize) -> bool
        ensures { result ≡ closes rank (held self.now.frames.items) }
    {
        match self.frames.last() {
            Some(Frame::Operand(_, operator)) => rank <= operator.rank(),
            Some(Frame::InNot) => rank <= 3,
            Some(Frame::InNegative) => rank <= 7,
            _ => false,
        }
    }

    /// Whether a queue has been asked for last, to which something is done.
    pub fn wants(&self) -> bool
        ensures { result ≡ wants (held self.now.frames.items) }
    {
        matches!(self.frames.last(), Some(Frame::InQueue(..)))
    }

    /// Whether a timer has been asked for last, which is started.
    pub fn starts_timer(&self) -> bool
        ensures { result ≡ starts_timer (held self.now.frames.items) }
    {
        matches!(self.frames.last(), Some(Frame::InStart(_)))
    }

    /// Whether nothing has begun.
    pub fn is_empty(&self) -> bool
        ensures { result ≡ is_bottom (held self.now.frames.items) }
    {
        self.frames.is_empty()
    }

    /// What the next operand is to stand for, or the one that has come.
    pub fn role(&self, member: Option<Member>, kinds: &[Meaning]) -> Role {
        match self.frames.last() {
            Some(Frame::InWait(_)) => match member {
                Some(Member::Each) => Role::Each,
                Some(Member::Shown) => Role::Shown,
                _ => Role::Value,
            },
            Some(Frame::InIndex(name)) => {
                if member == Some(Member::Shown)
                    && self.frames.len() == 2
                    && stands_for(kinds, *name).is_queue_array()
                {
                    Role::Numbered
                } else {
                    Role::Value
                }
            }
            Some(Frame::InPlace(_)) => Role::Place,
            Some(Frame::InQueue(_, Verb::Observe)) => Role::Observation,
            Some(Frame::InDeed(_, Deed::Do)) => Role::Procedure,
            Some(Frame::InStart(_) | Frame::InDeed(_, Deed::Stop)) => Role::Timer,
            Some(Frame::InQueue(..) | Frame::InDeed(..)) => Role::Queue,
            Some(Frame::InCall(_) | Frame::Operand(_, Operator::Comma))
                if self.fields_before().is_some() => Role::Field,
            Some(Frame::InCall(name)) => match *name {
                3 => Role::Measured,
                10 => Role::Table,
                12 | 13 => Role::Timer,
                14 => Role::Timers,
                other => {
                    if takes_numbers(other) {
                        Role::Value
                    } else {
                        Role::First
                    }
                }
            },
            Some(Frame::InCount(_)) => Role::Count,
            _ => Role::Value,
        }
    }

    /// Whether what comes is too deep once it is in the core, where `length` of a table is no level.
    pub fn is_too_deep(&self, is_table: bool) -> bool {
        let mut deep = self.deep;
        for frame in self.frames.iter() {
            deep = deep.saturating_add(frame.more_levels());
        }
        match self.frames.last() {
            Some(Frame::InCall(3)) if is_table => deep > MAX_LEVELS + 1,
            Some(Frame::InCall(10)) => deep >= MAX_LEVELS,
            _ => deep > MAX_LEVELS,
        }
    }

    /// Whether a number may be drawn here: one in a statement of a program or in a test, and none in the index of what is
    /// changed.
    pub fn may_draw(&self, member: Option<Member>) -> bool {
        if member.is_some() {
            return false;
        }
        for frame in self.frames.iter().rev() {
            match frame {
                Frame::Operand(before, _) => {
                    if draws(before) {
                        return false;
                    }
                }
                Frame::InCall(10 | 11) => return false,
                Frame::InNot
                | Frame::InNegative
                | Frame::InGroup
                | Frame::InIndex(_)
                | Frame::InCall(_)
                | Frame::InRandom => {}
                Frame::InPlace(_) | Frame::InQueue(..) | Frame::InDeed(..) | Frame::InStart(_) =>
                    return false,
                _ => return true,
            }
        }
        true
    }

    /// The fields with their numbers before the one that is to come, where one is.
    fn fields_before(&self) -> Option<Option<&SourceExpr>> {
        let mut before = None;
        for frame in self.frames.iter().rev() {
            match frame {
                Frame::Operand(fields, Operator::Comma) if before.is_none() => {
                    before = Some(fields)
                }
                Frame::InCall(ITEM) => return Some(before),
                _ => return None,
            }
        }
        None
    }

    /// Whether a field is to come that has come before.
    pub fn is_given(&self, name: usize) -> bool {
        match self.fields_before() {
            Some(Some(before)) => is_given(name, before),
            _ => false,
        }
    }

    /// Whether one argument more may come.
    pub fn takes_comma(&self) -> bool {
        let mut before = None;
        for frame in self.frames.iter().rev() {
            match frame {
                Frame::Operand(_, Operator::Colon) => return true,
                Frame::Operand(arguments, Operator::Comma) => before = Some(arguments),
                Frame::Operand(..) | Frame::InNot | Frame::InNegative => {}
                Frame::InCall(name) => {
                    return match before {
                        None => arity(*name) > 1,
                        Some(arguments) => arity(*name) > 2 && arguments.is_many(1),
                    };
                }
                Frame::InItem(_, Verb::Put, _) | Frame::InSend(_) => return before.is_none(),
                _ => return false,
            }
        }
        false
    }
}
