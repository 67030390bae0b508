//! The lines of messages in a description. Where memory is wanting a part of them may stand there: the
//! callers give the text up.

ghost use Rattle.std.specs.Prelude.{◌≡◌, ◌++◌, OnOk, codes, flat_map, string_bytes};
ghost use Rattle.tw_inspect.specs.Reports.{mail_line, name_at, outgoing_line, owed_line, owed_lines, pending_line, waiting_line};
ghost use Rattle.tw_texts.specs.Items.{message_text, sign_text};

use std::alloc::AllocError;
use tw_atomic::Atomic;
use tw_msgs::{Item, Message};
use tw_network::Network;
use tw_process::Cancel;
use tw_texts::{push_message, sign_name};

/// The lines of pending messages.
pub(crate) fn add_pending(text: &mut String, messages: &[Message]) -> Result<(), AllocError>
    ensures { OnOk result
        (string_bytes text.new ≡ string_bytes text.old ++ flat_map pending_line messages.now) }
{
    for message in messages {
        add_line(text, "pending ", message)?;
    }
    Ok(())
}

/// The lines of messages whose anti-messages wait.
pub(crate) fn add_waiting(text: &mut String, messages: &[Message]) -> Result<(), AllocError>
    ensures { OnOk result
        (string_bytes text.new ≡ string_bytes text.old ++ flat_map waiting_line messages.now) }
{
    for message in messages {
        add_line(text, "waiting ", message)?;
    }
    Ok(())
}

/// The lines of outgoing items, with the names of their receivers.
pub(crate) fn add_outgoing<M: Atomic>(
    text: &mut String,
    network: &Network<M>,
    items: &[Item],
) -> Result<(), AllocError>
    ensures { OnOk result (string_bytes text.new ≡ string_bytes text.old
        ++ flat_map (outgoing_line network.now.names) items.now) }
{
    for item in items {
        let name = name_of(network, item.message.to);
        add_outgoing_item(text, name, item)?;
    }
    Ok(())
}

/// The lines of messages that are owed, where steps are cancelled lazily.
pub(crate) fn add_owed<M: Atomic>(
    text: &mut String,
    network: &Network<M>,
    cancel: Cancel,
    messages: &[Message],
) -> Result<(), AllocError>
    ensures { OnOk result (string_bytes text.new ≡ string_bytes text.old
        ++ owed_lines network.now.names cancel messages.now) }
{
    match cancel {
        Cancel::Aggressive => Ok(()),
        Cancel::Lazy => add_owed_messages(text, network, messages),
    }
}

fn add_owed_messages<M: Atomic>(
    text: &mut String,
    network: &Network<M>,
    messages: &[Message],
) -> Result<(), AllocError>
    ensures { OnOk result (string_bytes text.new ≡ string_bytes text.old
        ++ flat_map (owed_line network.now.names) messages.now) }
{
    for message in messages {
        let name = name_of(network, message.to);
        add_owed_message(text, name, message)?;
    }
    Ok(())
}

/// The lines of the items of a mailbox.
pub(crate) fn add_mail(text: &mut String, items: &[Item]) -> Result<(), AllocError>
    ensures { OnOk result
        (string_bytes text.new ≡ string_bytes text.old ++ flat_map mail_line items.now) }
{
    for item in items {
        add_mail_item(text, item)?;
    }
    Ok(())
}

/// The name of a component; of a number that no component has, nothing.
fn name_of<M: Atomic>(network: &Network<M>, component: usize) -> &str
    ensures { result.now ≡ name_at network.now.names component }
{
    if component < network.len() {
        network.name(component)
    } else {
        network.facts();
        ""
    }
}

/// A message, with what is said of it before.
fn add_line(text: &mut String, said: &str, message: &Message) -> Result<(), AllocError>
    ensures { OnOk result (string_bytes text.new ≡ string_bytes text.old ++ said.now
        ++ message_text message.now ++ codes "\n") }
{
    text.push_str(said)?;
    push_message(text, message)?;
    text.push_str("\n")
}

/// An outgoing item, with the name of its receiver.
fn add_outgoing_item(text: &mut String, name: &str, item: &Item) -> Result<(), AllocError>
    ensures { OnOk result (string_bytes text.new ≡ string_bytes text.old
        ++ codes "outgoing " ++ sign_text item.now.sign ++ codes " " ++ name.now ++ codes " " ++ message_text item.now.message ++ codes "\n") }
{
    let sign = sign_name(item.sign);
    write!(text, "outgoing {sign} {name}")?;
    add_line(text, " ", &item.message)
}

/// A message that is owed, with the name of its receiver.
fn add_owed_message(text: &mut String, name: &str, message: &Message) -> Result<(), AllocError>
    ensures { OnOk result (string_bytes text.new ≡ string_bytes text.old ++ codes "owed "
        ++ name.now ++ codes " " ++ message_text message.now ++ codes "\n") }
{
    write!(text, "owed {name}")?;
    add_line(text, " ", message)
}

/// An item of a mailbox.
fn add_mail_item(text: &mut String, item: &Item) -> Result<(), AllocError>
    ensures { OnOk result (string_bytes text.new ≡ string_bytes text.old ++ mail_line item.now) }
{
    let sign = sign_name(item.sign);
    write!(text, "mail {sign}")?;
    add_line(text, " ", &item.message)
}
