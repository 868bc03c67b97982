// Promises: what flows ask of ports, and what ports promise them.
#![tactic(auto)]

pub mod crossings;
pub mod demand;
pub mod load;
pub mod loads;
pub mod pairs;
pub mod per_port;
pub mod port;
pub mod table;
