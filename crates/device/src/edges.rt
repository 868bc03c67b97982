// The regulators at the edge.
ghost use Rattle.std.specs.Prelude.{◌≡◌, ◌≤◌, ◌++◌, IfOk, OnOk, map, length};
ghost use Rattle.flows.specs.Models.{flow_of};
ghost use Rattle.bridge.specs.Held.{edge_state};
ghost use Rattle.admission.specs.Models.{numbered_model};
ghost use Rattle.admission.specs.Rules.{flows_of};
ghost use Rattle.device.specs.Starts.{edge_one, edges_from, at_rest};

use super::goes::begins_at;
use admission::refusal::Numbered;
use bridge::regulated::Edge;
use flows::flow::Flow;
use regulators::edge_gate::EdgeGate;
use std::alloc::{AllocError, Global};

// One for each flow whose road begins at a port, in the order of admission.
pub(crate) fn edges_of(heap: Global, flows: &[Numbered], port: u8) -> Result<Vec<Edge>, AllocError>
    requires { length flows.now ≤ 256 }
    ensures { IfOk result (λ edges. map edge_state edges.items ≡ map at_rest (edges_from port 0 (flows_of (map numbered_model flows.now)))) }
{
    let mut edges = Vec::new(heap);
    // a place is below 256: `try_from` would have a case that never comes
    for (place, numbered) in flows.iter().enumerate() {
        add_edge(heap, place as u16, &numbered.flow, port, &mut edges)?;
    }
    Ok(edges)
}

// That of the flow of this place, if its road begins at the port.
fn add_edge(
    heap: Global,
    place: u16,
    flow: &Flow,
    port: u8,
    edges: &mut Vec<Edge>,
) -> Result<(), AllocError>
    ensures { OnOk result (map edge_state edges.new.items ≡ map edge_state edges.old.items ++ map at_rest (edge_one port place (flow_of flow.now))) }
{
    if !begins_at(flow.road(), port) {
        return Ok(());
    }
    let gate = EdgeGate::new(heap)?;
    edges.push(Edge { flow: place, gate })?;
    Ok(())
}
