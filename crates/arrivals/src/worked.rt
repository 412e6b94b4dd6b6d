//! Worked examples of the definitions.
ghost use Rattle.std.specs.Prelude.{◌≡◌};
ghost use Rattle.arrivals.specs.Worked.{message_10, WorkedKinds};

use crate::messages::Message;

/// The message of the worked plan; its contract states the worked values of the arrival bounds.
pub fn worked_message() -> Message
    ensures value { result ≡ message_10 }
    ensures worked { WorkedKinds }
{
    Message {
        period: 20,
        jitter: 0,
        cells: 3,
        gap: 2,
    }
}
