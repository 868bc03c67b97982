// A program's input, record by record: what becomes of each, and the lines that say so.
#![tactic(auto)]

pub mod closing;
pub mod line;
pub mod session;
pub mod show;
pub mod steps;
pub mod take;
