// The memory that promises need: of a regulator, of a port, of a switch.
#![tactic(auto)]

pub mod needs;
