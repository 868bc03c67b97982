use lines::packet::Packet;

// A packet that is being sent, and the tick at which its last bit leaves.
#[derive(Clone, Copy, Debug, PartialEq, Eq)]
pub struct Sending {
    pub packet: Packet,
    pub until: u64,
}
