// The ports of a switch, as an admitted plan makes them.
#![tactic(auto)]

mod edges;
mod goes;
mod inside;
mod levels_of;
pub mod port_of;
