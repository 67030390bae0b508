//! Network inputs as messages.

ghost use Rattle.std.specs.Prelude.{◌≡◌, ◌≤◌};
ghost use Rattle.tw_network.specs.Contents.{message_of};
ghost use Rattle.tw_vtime.specs.Stamps.{max_tick};

use crate::wiring::Input;
use tw_msgs::Message;
use tw_vtime::Stamp;

/// A network input as the message that it is: it comes at the transition of its tick's first microstep.
pub fn message_of(input: &Input) -> Message
    requires { input.now.0 ≤ max_tick }
    ensures { result ≡ message_of input.now }
{
    let (tick, to, port, value) = *input;
    Message {
        stamp: Stamp::new(tick, 0, 1).unwrap(),
        port,
        value,
        to,
    }
}
