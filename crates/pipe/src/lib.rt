// What goes from one port to the next.
#![tactic(auto)]

pub mod due;
