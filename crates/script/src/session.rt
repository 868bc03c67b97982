ghost use Rattle.std.specs.Prelude.{◌≤◌};

use admission::plan::Plan;
use records::stage::{Program, Stage};

// How far a program has come with its input.
#[derive(Drop)]
pub struct Session {
    pub program: Program,
    pub stage: Stage,
    // the switch that this program is, where it is one: program and stage say whether it is, so an Option would say it twice
    pub switch: u8,
    pub plan: Plan,
    pub clock: u64,
    // records so far
    pub records: u64,
    // those of them that took a flow number
    pub numbered: u64,
    // refused packets of no flow
    pub no_flow: u64,
    // refused records that are no packet of this kind
    pub others: u64,
    ghost clock_ends: { clock ≤ 1099511627776 },
}
