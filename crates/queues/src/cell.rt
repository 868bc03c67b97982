use lines::packet::Packet;

// A cell of the lent memory: a packet, and the place of the next cell of its queue. Links by place, since the memory of a port is
// lent as a slice of cells.
#[derive(Clone, Copy, Debug, PartialEq, Eq)]
pub struct Cell {
    pub packet: Packet,
    pub next: u32,
}
