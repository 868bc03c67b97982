// The bytes of records: the row they stand in, and a reader that stops at the first fault.
#![tactic(auto)]

pub mod fault;
pub mod kind;
pub mod number;
pub mod piece;
pub mod reader;
pub mod reads;
pub mod records;
