use flows::flow::Flow;

// What an admitted flow is due up to each port of its road, with all flows of the plan. A table as
// long as the flow's own, of which as many are in use: asking for dues cannot fail for want of memory.
#[derive(Clone, Copy)]
pub struct Dues {
    pub flow: Flow,
    pub ticks: [u64; 16],
}
