//! One line of a script.

ghost use Rattle.std.specs.Prelude.{◌≡◌, ◌++◌, ◌∷◌, ◌<◌, ◌≤◌, ℕ, List, IfSome, IfNone, codes, decimal, length};
ghost use Rattle.tw_script.specs.Scripts.{is_skipped, name_of, Says};
ghost use Rattle.tw_script.specs.Words.{IsFree};
ghost use Rattle.tw_script.specs.declared.command.Command.{Command as Said};
ghost use Rattle.tw_script.specs.declared.command.Command.TheVariants.{Act as Acts};
ghost use Rattle.tw_vtime.specs.Stamps.{IsStamp, stamp_text};

use crate::command::Command;
use crate::words::{number, stamp};
use tw_actions::Action;
use tw_atomic::Atomic;
use tw_network::Network;

/// Whether a line is empty or begins with #.
pub(crate) fn is_skipped(line: &str) -> bool
    ensures { result ≡ is_skipped line.now }
{
    line.is_empty() || line.starts_with('#')
}

/// The command that a line says; none where it is the line of no command.
pub(crate) fn command_of<M: Atomic>(line: &str, network: &Network<M>) -> Option<Command>
    ensures said { IfSome result (λ command. Says network.now.names command line.now) }
    ensures none { IfNone result ((command : Said) → ¬ (Says network.now.names command line.now)) }
{
    match line.split_once(' ') {
        None => command_alone(line),
        Some((verb, operands)) => command_with(verb, operands, network),
    }
}

/// The command of one word.
fn command_alone(word: &str) -> Option<Command>
    requires { IsFree 32 word.now }
    ensures said { (names : List (List ℕ))
        → IfSome result (λ command. Says names command word.now) }
    ensures none { (names : List (List ℕ))
        → IfNone result ((command : Said) → ¬ (Says names command word.now)) }
{
    match word {
        "raise" => Some(Command::Act(Action::Raise)),
        "mark" => Some(Command::Mark),
        "rewind" => Some(Command::Rewind),
        "show" => Some(Command::Show),
        _ => None,
    }
}

/// The command of a verb and its operands.
fn command_with<M: Atomic>(verb: &str, operands: &str, network: &Network<M>) -> Option<Command>
    requires { IsFree 32 verb.now }
    ensures said { IfSome result
        (λ command. Says network.now.names command (verb.now ++ 32 ∷ operands.now)) }
    ensures none { IfNone result ((command : Said)
        → ¬ (Says network.now.names command (verb.now ++ 32 ∷ operands.now))) }
{
    match verb {
        "step" => Some(Command::Act(Action::Step(network.find(operands)?))),
        "post" => Some(Command::Act(Action::Post(network.find(operands)?))),
        "harvest" => Some(Command::Act(Action::Harvest(network.find(operands)?))),
        "show" => Some(Command::Describe(network.find(operands)?)),
        "deliver" => Some(Command::Act(delivery(operands, network)?)),
        "back" => Some(Command::Act(rollback(operands, network)?)),
        _ => None,
    }
}

/// The delivery of a receiver's name and a place of its mailbox.
fn delivery<M: Atomic>(operands: &str, network: &Network<M>) -> Option<Action>
    ensures said { IfSome result
        (λ action. Says network.now.names (Acts action) (codes "deliver " ++ operands.now)) }
    ensures none { IfNone result ((q i : ℕ) → q < length network.now.names
        → i ≤ 18446744073709551615
        → ¬ (operands.now ≡ name_of network.now.names q ++ 32 ∷ decimal i)) }
{
    network.facts();
    let (receiver, place) = operands.split_once(' ')?;
    let receiver = network.find(receiver)?;
    Some(Action::Deliver(receiver, number(place)? as usize))
}

/// The rollback of a component's name and a stamp.
fn rollback<M: Atomic>(operands: &str, network: &Network<M>) -> Option<Action>
    ensures said { IfSome result
        (λ action. Says network.now.names (Acts action) (codes "back " ++ operands.now)) }
    ensures none { IfNone result ((p s : ℕ) → p < length network.now.names → IsStamp s
        → ¬ (operands.now ≡ name_of network.now.names p ++ 32 ∷ stamp_text s)) }
{
    network.facts();
    let (component, at) = operands.split_once(' ')?;
    let component = network.find(component)?;
    Some(Action::Back(component, stamp(at)?))
}
