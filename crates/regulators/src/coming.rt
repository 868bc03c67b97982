use lines::packet::Packet;

// A packet that comes to a regulator, and the number of its record: by that it is named where it is refused.
#[derive(Clone, Copy, Debug, PartialEq, Eq)]
pub struct Coming {
    pub number: u64,
    pub packet: Packet,
}
