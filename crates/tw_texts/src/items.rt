//! The texts of messages and items in transit.

ghost use Rattle.std.specs.Prelude.{◌≡◌, ◌++◌, OnOk, OnErr, string_bytes};
ghost use Rattle.tw_texts.specs.Items.{message_text, sign_text};

use std::alloc::AllocError;
use tw_msgs::{Message, Sign};

/// The sign of an item in transit: `+` of a message, `-` of an anti-message.
pub fn sign_name(sign: Sign) -> &'static str
    ensures { result.now ≡ sign_text sign }
{
    match sign {
        Sign::Positive => "+",
        Sign::Anti => "-",
    }
}

fn add_message(text: &mut String, message: &Message) -> Result<(), AllocError>
    ensures { OnOk result
        (string_bytes text.new ≡ string_bytes text.old ++ message_text message.now) }
{
    let Message {
        stamp,
        port,
        value,
        ..
    } = *message;
    write!(text, "{port}={value} at {stamp}")
}

/// Adds what a message brings and when: its port, its value and its stamp, as `0=5 at 2.0.1`. Its
/// receiver is not read.
///
/// Where memory is wanting (refusal 4) the text stays as it was.
pub fn push_message(text: &mut String, message: &Message) -> Result<(), AllocError>
    ensures ok { OnOk result
        (string_bytes text.new ≡ string_bytes text.old ++ message_text message.now) }
    ensures err { OnErr result (string_bytes text.new ≡ string_bytes text.old) }
{
    let mut piece = String::new(*text.allocator());
    add_message(&mut piece, message)?;
    text.push_str(piece.as_str())
}
