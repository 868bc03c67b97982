// A packet that waits: its flow, its length in ticks of sending, and the tick at which it passed the edge of the net.
#[derive(Clone, Copy, Debug, Default, PartialEq, Eq)]
pub struct Packet {
    pub flow: u16,
    pub length: u8,
    pub edge: u64,
}
