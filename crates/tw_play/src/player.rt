//! The player.

ghost use Rattle.std.specs.Prelude.{◌≡◌, IfErr, IfOk};
ghost use Rattle.tw_play.specs.Playing.{begun, wants_memory, IsDescribed, IsMarked, IsObeyed, IsRewoundTo};
ghost use Rattle.tw_play.specs.declared.response.Response.TheVariants.{Text};

use crate::response::Response;
use std::alloc::{AllocError, Global};
use std::marker::Model;
use tw_atomic::Atomic;
use tw_exec::{Done, Executive, Mark, Refused};
use tw_inspect::{Reply, describe, report};
use tw_script::Command;

/// An executive that is driven by hand, and the mark that is kept.
#[derive(Drop)]
pub struct Player<M: Atomic> {
    executive: Executive<M>,
    mark: Option<Mark>,
}

impl<M: Atomic> Model for Player<M> {
    ghost use Rattle.tw_play.specs.Playing.{Played};

    ghost Value = { Played M M.State };

    ghost view = { λ p. record { executive = p.executive; mark = p.mark } };
}

impl<M: Atomic> Player<M> {
    /// A player of an executive. No mark is kept.
    pub fn new(executive: Executive<M>) -> Player<M>
        ensures { result ≡ begun executive }
    {
        Player {
            executive,
            mark: None,
        }
    }

    /// The executive.
    pub fn executive(&self) -> &Executive<M>
        ensures { result.now ≡ self.now.executive }
    {
        &self.executive
    }

    /// Gives the executive up as it stands; the mark is forgotten.
    pub fn into_executive(self) -> Executive<M>
        ensures { result ≡ self.executive }
    {
        self.executive
    }

    /// Obeys a command, and answers what came of it.
    ///
    /// An action is the executive's. `Mark` keeps where every component stands, in place of an earlier mark; `Rewind` goes back
    /// there, and the mark stays. `Show` and `Describe` change nothing. Where a command is refused nothing changes: an action for
    /// its own reasons; a rewind where no mark is kept (15), or where a step since the mark is committed or stands before global
    /// virtual time (13); a description of a component that is not there (15); and a mark, a report or a description for want
    /// of memory (4).
    pub fn obey(&mut self, alloc: Global, command: Command) -> Response
        ensures { IsObeyed M.meaning command self.old result self.new }
    {
        match command {
            Command::Act(action) => Response::Reply(Reply::from(self.executive.act(action))),
            Command::Mark => Response::Reply(self.keep_mark()),
            Command::Rewind => Response::Reply(Reply::from(self.rewind())),
            Command::Show => shown(report(alloc, &self.executive)),
            Command::Describe(component) => self.description(alloc, component),
        }
    }
}

impl<M: Atomic> Player<M> {
    /// Where every component stands is kept.
    fn keep_mark(&mut self) -> Reply
        ensures { IsMarked self.old result self.new }
    {
        let Ok(mark) = self.executive.mark() else {
            return Reply::Refused(Refused::OutOfMemory);
        };
        self.mark = Some(mark);
        Reply::Marked
    }

    /// Every component goes back to where it stood at the mark.
    fn rewind(&mut self) -> Result<Done, Refused>
        ensures executive { IsRewoundTo self.old.mark self.old.executive result self.new.executive }
        ensures mark { self.new.mark ≡ self.old.mark }
    {
        let Some(mark) = &self.mark else {
            return Err(Refused::NoSuch);
        };
        let undone = self.executive.rewind(mark)?;
        Ok(Done::Undone(undone))
    }

    /// The description of a component.
    fn description(&self, alloc: Global, component: usize) -> Response
        ensures { IsDescribed M.meaning self.now.executive component result }
    {
        if component >= self.executive.network().len() {
            return Response::Reply(Reply::Refused(Refused::NoSuch));
        }
        shown(describe(alloc, &self.executive, component))
    }
}

/// A text to be shown; want of memory is a reply.
fn shown(text: Result<String, AllocError>) -> Response
    ensures text { IfOk text (λ bytes. result ≡ Text bytes) }
    ensures wanting { IfErr text (λ _. result ≡ wants_memory) }
{
    match text {
        Ok(text) => Response::Text(text),
        Err(_) => Response::Reply(Reply::Refused(Refused::OutOfMemory)),
    }
}
