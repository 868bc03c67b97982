// The records of a script: packets, ticks and the switch of a program, and which records are known where a program stands.
#![tactic(auto)]

pub mod kinds;
pub mod names;
pub mod read;
pub mod record;
pub mod stage;
