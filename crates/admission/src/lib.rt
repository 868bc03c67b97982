// Admission: the tests that flows must pass together, the first that they fail, and a plan of those that pass.
#![tactic(auto)]

pub mod admit;
pub mod due;
pub mod dues;
pub mod judge;
pub mod plan;
pub mod refusal;
pub mod tests_of;
