use flows::flow::Flow;
use flows::net::Net;

// A packet of a flow, of so many ticks.
#[derive(Clone, Copy, Debug, PartialEq, Eq)]
pub struct Packet {
    pub flow: u16,
    pub length: u8,
}

// A packet that comes to a switch, and the port by which it goes on.
#[derive(Clone, Copy, Debug, PartialEq, Eq)]
pub struct Arrival {
    pub packet: Packet,
    pub port: u8,
}

// So many ticks.
#[derive(Clone, Copy, Debug, PartialEq, Eq)]
pub struct Ticks {
    pub count: u32,
}

// The switch that a program is.
#[derive(Clone, Copy, Debug, PartialEq, Eq)]
pub struct Switch {
    pub number: u8,
}

#[derive(Clone, Copy)]
pub enum Record {
    Switch(Switch),
    Net(Net),
    Flow(Flow),
    Packet(Packet),
    Arrival(Arrival),
    Ticks(Ticks),
}
