use super::sending::Sending;
use lines::packet::Packet;

// What becomes of what is being sent: its last bit has left, or it goes on, or nothing is being sent: three
// cases, so no Option.
#[derive(Clone, Copy, Debug, PartialEq, Eq)]
pub enum Leaving {
    Gone { packet: Packet },
    Busy { sending: Sending },
    Idle,
}
