//! What is seen of a run, as a text: a line for each rollback, message, rise, commit and refusal, and where components end.

use std::alloc::{AllocError, Global};
use tw_msgs::Sign;
use tw_vtime::Stamp;
use tw_warp_picture::{Carried, Cause, Fallen, Seen};

/// All that is seen.
pub(crate) fn summary(alloc: Global, seen: &Seen) -> Result<String, AllocError> {
    let mut text = String::new(alloc);
    push_counts(&mut text, seen)?;
    for fallen in seen.falls.as_slice() {
        push_fall(&mut text, fallen)?;
    }
    for carried in seen.messages.as_slice() {
        push_carried(&mut text, carried)?;
    }
    push_final(&mut text, seen)?;
    push_refused(&mut text, seen)?;
    push_ends(&mut text, seen)?;
    Ok(text)
}

fn push_counts(text: &mut String, seen: &Seen) -> Result<(), AllocError> {
    let actions = seen.actions.len();
    let steps = seen.steps.len();
    let undone = seen.steps.iter().filter(|step| step.undone).count();
    let outputs = seen.steps.iter().filter(|step| step.is_output()).count();
    write!(
        text,
        "actions {actions} steps {steps} outputs {outputs} undone {undone}\n"
    )
}

/// A stamp; `start` where there is none.
fn push_stamp(text: &mut String, stamp: Option<Stamp>) -> Result<(), AllocError> {
    match stamp {
        Some(stamp) => write!(text, " {stamp}"),
        None => text.push_str(" start"),
    }
}

/// The number of the action at a place: the first is 1.
fn number(place: usize) -> usize {
    place.saturating_add(1)
}

fn push_fall(text: &mut String, fallen: &Fallen) -> Result<(), AllocError> {
    let cause = match fallen.cause {
        Cause::Straggler => "straggler",
        Cause::AntiMessage => "anti",
        Cause::Back => "back",
    };
    let action = number(fallen.action);
    let component = fallen.component;
    write!(text, "fall {action} of {component} {cause} to")?;
    push_stamp(text, fallen.to)?;
    let least = fallen.least;
    let undone = fallen.undone;
    let rank = fallen.rank;
    write!(text, " from {least} on, {undone} undone, {rank} before\n")
}

fn push_carried(text: &mut String, carried: &Carried) -> Result<(), AllocError> {
    let sign = match carried.item.sign {
        Sign::Positive => "+",
        Sign::Anti => "-",
    };
    let made = number(carried.sending.action);
    let from = carried.sending.component;
    let to = carried.item.message.to;
    let value = carried.item.message.value;
    let at = carried.item.message.stamp;
    write!(text, "{sign} {made} of {from} to {to} {value} at {at} by")?;
    push_stamp(text, carried.sending.step)?;
    match carried.delivered {
        Some(place) => {
            let action = number(place);
            write!(text, " delivered {action}\n")
        }
        None => text.push_str(" not delivered\n"),
    }
}

fn push_final(text: &mut String, seen: &Seen) -> Result<(), AllocError> {
    for risen in seen.rises.as_slice() {
        let action = number(risen.action);
        let gvt = risen.gvt;
        write!(text, "rise {action} to {gvt}\n")?;
    }
    for commit in seen.commits.as_slice() {
        let action = number(commit.action);
        let component = commit.component;
        let from = commit.from;
        let to = commit.to;
        write!(text, "commit {action} of {component} from {from} to {to}\n")?;
    }
    Ok(())
}

fn push_refused(text: &mut String, seen: &Seen) -> Result<(), AllocError> {
    for (place, acted) in seen.actions.iter().enumerate() {
        if acted.is_refused() {
            let action = number(place);
            write!(text, "refused {action} at")?;
            push_stamp(text, acted.place)?;
            text.push_str("\n")?;
        }
    }
    Ok(())
}

fn push_ends(text: &mut String, seen: &Seen) -> Result<(), AllocError> {
    text.push_str("ends")?;
    for end in seen.ends.as_slice() {
        push_stamp(text, *end)?;
    }
    text.push_str("\n")
}
