// The queues of a port: eight classes in one lent memory, first in first out within a class.
#![tactic(auto)]

pub mod cell;
pub mod empty;
pub mod put;
pub mod queues_of;
pub mod take;
pub mod waiting;
