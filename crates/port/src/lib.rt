// One port: what it takes and sends.
#![tactic(auto)]

pub mod gone;
