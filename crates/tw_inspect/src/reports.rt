//! The report of an executive, and the description of a component.

ghost use Rattle.std.specs.Prelude.{ℕ, ◌≡◌, ◌<◌, ◌++◌, IfOk, IsSome, OnOk, length, string_bytes};
ghost use Rattle.tw_inspect.specs.Reports.{component_line, describe_text, gvt_line, messages_part, report_text, shown_at, text_if};
ghost use Rattle.tw_msgs.specs.Messages.{Sorted};

use crate::components::add_component;
use crate::items::{add_mail, add_outgoing, add_owed, add_pending, add_waiting};
use std::alloc::{AllocError, Global};
use tw_atomic::Atomic;
use tw_exec::Executive;
use tw_msgs::Item;
use tw_network::Network;
use tw_process::Process;

/// The report of an executive: global virtual time and how many records are committed, as
/// `gvt 2.0.0 committed 0`, and then a line for each component, as
/// `r line 0.0.0 next 3.0.1 due end last 0.0 steps 0 pending 1 waiting 0 outgoing 0 mail 0 | 0`.
///
/// Such a line has the component's name, its commit line, the stamp of its next step and of its next own
/// one, the time of its last transition, how many steps are not committed, how many messages stand in
/// each of its lists and in its mailbox, and the words of its present state. Where steps that are taken
/// back are cancelled lazily it has ` owed N` after the number of outgoing items.
///
/// Refused for want of memory alone (4).
pub fn report<M: Atomic>(alloc: Global, executive: &Executive<M>) -> Result<String, AllocError>
    ensures { IfOk result (λ text. string_bytes text ≡ report_text M.meaning executive.now) }
{
    let mut text = String::new(alloc);
    add_gvt(&mut text, executive)?;
    for component in 0..executive.network().len() {
        add_line(alloc, &mut text, executive, component)?;
    }
    Ok(text)
}

/// The description of a component: its line of the report, and then a line for each of its messages.
///
/// First its pending messages by stamp, port and value, as `pending 0=5 at 2.0.1`; then those whose
/// anti-messages wait, in order of arrival, as `waiting 0=8 at 4.0.1`; its outgoing items in order, with
/// the receiver's name and `-` for an anti-message, as `outgoing + t 0=8 at 4.0.1`; where steps that are
/// taken back are cancelled lazily the messages that it owes, as `owed t 0=8 at 4.0.1`; and the items of
/// its mailbox in order, as `mail - 0=8 at 4.0.1`.
///
/// Refused for want of memory alone (4).
pub fn describe<M: Atomic>(
    alloc: Global,
    executive: &Executive<M>,
    component: usize,
) -> Result<String, AllocError>
    requires { component < length executive.now.network.models }
    ensures { IfOk result
        (λ text. string_bytes text ≡ describe_text M.meaning executive.now component) }
{
    executive.facts();
    let network = &**executive.network();
    let process = executive.contents(component);
    let mail = executive.mail(component);
    let mut text = String::new(alloc);
    add_component(
        alloc,
        &mut text,
        network.name(component),
        network.model(component),
        process,
        mail,
    )?;
    add_messages(&mut text, network, process, mail)?;
    Ok(text)
}

/// Every component of an executive is there, so that no line of a report and no description is left out.
/// The call does nothing.
pub fn components_law<M: Atomic>(executive: &Executive<M>)
    ensures { (c : ℕ) → c < length executive.now.network.models
        → IsSome (shown_at M.meaning executive.now c) }
{
    executive.facts();
    executive.network().facts();
}

/// Global virtual time, and how many records are committed.
fn add_gvt<M: Atomic>(text: &mut String, executive: &Executive<M>) -> Result<(), AllocError>
    ensures { OnOk result
        (string_bytes text.new ≡ string_bytes text.old ++ gvt_line executive.now.world) }
{
    let gvt = executive.gvt();
    let committed = executive.committed_len();
    write!(text, "gvt {gvt} committed {committed}\n")
}

/// The line of a component.
fn add_line<M: Atomic>(
    alloc: Global,
    text: &mut String,
    executive: &Executive<M>,
    component: usize,
) -> Result<(), AllocError>
    requires { component < length executive.now.network.models }
    ensures { OnOk result (string_bytes text.new ≡ string_bytes text.old
        ++ text_if component_line (shown_at M.meaning executive.now component)) }
{
    let network = &**executive.network();
    let process = executive.contents(component);
    add_component(
        alloc,
        text,
        network.name(component),
        network.model(component),
        process,
        executive.mail(component),
    )
}

/// The lines of the messages of a process and of its mailbox.
fn add_messages<M: Atomic>(
    text: &mut String,
    network: &Network<M>,
    process: &Process<M>,
    mail: &[Item],
) -> Result<(), AllocError>
    requires { Sorted process.now.process.pending }
    ensures { OnOk result (string_bytes text.new ≡ string_bytes text.old
        ++ messages_part network.now.names process.now.process mail.now) }
{
    let lists = process.lists();
    let pending = lists.pending()?;
    let waiting = lists.waiting()?;
    let outgoing = lists.outgoing()?;
    let owed = lists.owed()?;
    add_pending(text, pending.as_slice())?;
    add_waiting(text, waiting.as_slice())?;
    add_outgoing(text, network, outgoing.as_slice())?;
    add_owed(text, network, process.cancel(), owed.as_slice())?;
    add_mail(text, mail)
}
