// One port of a switch, with all regulators before it.
#![tactic(auto)]

pub mod begin;
pub mod come;
pub mod come_error;
pub mod egress_port;
pub mod leave;
pub mod regulated;
pub mod ticks;
pub mod waiting;
