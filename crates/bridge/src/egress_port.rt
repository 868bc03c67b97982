use super::regulated::{Edge, Inside};
use levels::level::Level;
use machine::sending::Sending;
use queues::queues_of::Queues;

// A port with the regulators before it, in the order in which they are opened, a level for each flow, and what it is
// sending. The cells of its queues are lent to each call: they are a part of the memory of its switch.
#[derive(Drop)]
pub struct EgressPort {
    pub edges: Vec<Edge>,
    pub inside: Vec<Inside>,
    pub levels: Vec<Level>,
    pub queues: Queues,
    pub sending: Option<Sending>,
}
