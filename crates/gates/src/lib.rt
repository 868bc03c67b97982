// Gates: regulators before the queues of a port.
#![tactic(auto)]

pub mod gate;
pub mod regulator;
