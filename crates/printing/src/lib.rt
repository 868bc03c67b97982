// What a program prints for its input, and a program as it is run.
#![tactic(auto)]

pub mod dues;
pub mod print;
pub mod printout;
pub mod run;
pub mod send;
pub mod settle;
