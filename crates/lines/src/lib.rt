// Lines: what waits, first in, first out, in lent memory.
#![tactic(auto)]

pub mod counted;
pub mod counting;
pub mod line;
pub mod packet;
pub mod queue;
