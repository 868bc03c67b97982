use super::loads::Loads;
use super::per_port::PerPort;

// What flows ask of the regulators: for each port, what goes on from it to each port.
#[derive(Clone, Copy)]
pub struct Pairs {
    pub from: PerPort<Loads>,
}
