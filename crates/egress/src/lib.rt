// One tick of one port, with the regulators before it.
#![tactic(auto)]

pub mod clock;
