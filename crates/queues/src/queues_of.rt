use lines::packet::Packet;

// The queue of a class: where it begins and ends in the lent memory, and how many packets and ticks wait in it.
#[derive(Clone, Copy, Debug, Default, PartialEq, Eq)]
pub struct Queue {
    pub first: u32,
    pub last: u32,
    pub count: u32,
    pub ticks: u64,
}

// The queues of a port, one for each class, and where the free cells begin. The cells are lent to each call, and not held
// here: the memory stays its owner's. The free cells are linked as a queue is, but have no last and no ticks, so no `Queue`.
#[derive(Clone, Copy, Debug, Default, PartialEq, Eq)]
pub struct Queues {
    pub classes: [Queue; 8],
    pub free: u32,
    pub free_count: u32,
}

// What a port takes: a packet with its class, or nothing. An enum of its own, and no Option, is a rule of the project.
#[derive(Clone, Copy, Debug, PartialEq, Eq)]
pub enum Taken {
    Packet { class: u8, packet: Packet },
    Nothing,
}
