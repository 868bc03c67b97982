// Levels: what flows may still send into queues, and when.
#![tactic(auto)]

pub mod level;
mod product;
pub mod refill;
