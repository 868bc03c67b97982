use super::load::Load;
use super::per_port::PerPort;

// What flows ask of all ports of a net.
#[derive(Clone, Copy)]
pub struct Loads {
    pub ports: PerPort<Load>,
}
