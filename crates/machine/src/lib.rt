// The phases of a tick at one port.
#![tactic(auto)]

pub mod leaving;
pub mod phases;
pub mod sending;
