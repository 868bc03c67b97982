// Records to bytes: what the readers read back.
#![tactic(auto)]

pub mod numbers;
pub mod plans;
pub mod scripts;
pub mod written;
