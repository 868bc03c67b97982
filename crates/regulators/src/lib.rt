// Regulators: what comes to them in a tick is judged and put behind them, and what may pass passes.
#![tactic(auto)]

pub mod at_edge;
pub mod coming;
pub mod edge_gate;
pub mod inner_gate;
pub mod inside;
