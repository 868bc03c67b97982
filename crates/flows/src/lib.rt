// Flows and nets: what they are, and the bytes they are read from.
#![tactic(auto)]

pub mod flow;
pub mod net;
pub mod net_values;
pub mod port;
pub mod read_flow;
pub mod read_net;
pub mod road;
