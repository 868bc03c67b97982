use regulators::edge_gate::EdgeGate;
use regulators::inner_gate::InnerGate;

// The regulator of a flow that enters the net here, by the place of the flow among those admitted.
#[derive(Drop)]
pub struct Edge {
    pub flow: u16,
    pub gate: EdgeGate,
}

// The regulator of what comes from a port in a class.
#[derive(Drop)]
pub struct Inside {
    pub from: u8,
    pub class: u8,
    pub gate: InnerGate,
}
