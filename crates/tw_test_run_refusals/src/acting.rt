//! Actions, marks and rewindings, each made until it stands.

use crate::looking::look;
use std::alloc::Global;
use tw_any_model::AnyModel;
use tw_exec::{Action, Done, Executive, Mark, Refused};
use tw_inspect::Reply;
use tw_script::Command;
use tw_test_refusal_tools::Told;

/// What an action is called.
fn name_of(action: &Action) -> &'static str {
    match *action {
        Action::Step(_) => "Step",
        Action::Post(_) => "Post",
        Action::Deliver(_, _) => "Deliver",
        Action::Back(_, _) => "Back",
        Action::Raise => "Raise",
        Action::Harvest(_) => "Harvest",
    }
}

/// Takes an action, at the second try where memory is refused at the first.
pub(crate) fn act(
    told: &mut Told,
    alloc: Global,
    executive: &mut Executive<AnyModel>,
    action: &Action,
) -> Reply {
    let before = look(told, alloc, executive);
    let answer = executive.act(*action);
    if answer != Err(Refused::OutOfMemory) {
        return Reply::from(answer);
    }
    let after = look(told, alloc, executive);
    told.compare(name_of(action), before, after);
    Reply::from(executive.act(*action))
}

/// A mark of where components stand, at the second try where the first finds no memory.
pub(crate) fn mark(executive: &Executive<AnyModel>) -> Option<Mark> {
    match executive.mark() {
        Err(_) => executive.mark().ok(),
        made => made.ok(),
    }
}

/// Rewinds to a mark, which takes no memory. Without a mark there is none such.
fn rewind(executive: &mut Executive<AnyModel>, mark: Option<&Mark>) -> Reply {
    match mark {
        None => Reply::Refused(Refused::NoSuch),
        Some(mark) => match executive.rewind(mark) {
            Ok(undone) => Reply::Done(Done::Undone(undone)),
            Err(refused) => Reply::Refused(refused),
        },
    }
}

/// Obeys a command that changes the executive or marks it, and answers what came of it; of another command nothing.
pub(crate) fn obey(
    told: &mut Told,
    alloc: Global,
    executive: &mut Executive<AnyModel>,
    marked: &mut Option<Mark>,
    command: Command,
) -> Option<Reply> {
    match command {
        Command::Act(action) => Some(act(told, alloc, executive, &action)),
        Command::Mark => {
            *marked = mark(executive);
            Some(Reply::Marked)
        }
        Command::Rewind => Some(rewind(executive, marked.as_ref())),
        Command::Show | Command::Describe(_) => None,
    }
}
