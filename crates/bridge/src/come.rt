// What comes to a port in a tick.
ghost use Rattle.std.specs.Prelude.{◌≡◌, ◌==◌, ◌&&◌, position};
ghost use Rattle.bridge.specs.Held.{gates_of};
ghost use Rattle.bridge.specs.Comes.{of_source, of_port, ComeMeans, RestAsBefore};

use super::come_error::ComeError;
use super::egress_port::EgressPort;
use super::regulated::{Edge, Inside};
use regulators::coming::Coming;

impl EgressPort {
    // One more that comes in this tick from the source of its flow: to the first regulator at the edge that is the flow's.
    // Where there is none, or memory ends, nothing changes.
    pub fn come_from_source(&mut self, coming: Coming) -> Result<(), ComeError>
        ensures comes { ComeMeans (of_source coming.packet.flow) coming (gates_of self.old) (gates_of self.new) result }
        ensures rest { RestAsBefore self.old self.new }
    {
        let flow = coming.packet.flow;
        let place = edge_of(&self.edges, flow).ok_or(ComeError::NoGate)?;
        self.edges[place].gate.come(coming)?;
        Ok(())
    }

    // One more that comes in this tick from a port before, in a class: to the first regulator inside that is theirs. Where
    // there is none, or memory ends, nothing changes.
    pub fn come_from_port(&mut self, from: u8, class: u8, coming: Coming) -> Result<(), ComeError>
        ensures comes { ComeMeans (of_port from class) coming (gates_of self.old) (gates_of self.new) result }
        ensures rest { RestAsBefore self.old self.new }
    {
        let place = inside_of(&self.inside, from, class).ok_or(ComeError::NoGate)?;
        self.inside[place].gate.come(coming)?;
        Ok(())
    }
}

// The place of the first regulator of a flow.
fn edge_of(edges: &[Edge], flow: u16) -> Option<usize>
    ensures { result ≡ position (λ edge. edge.flow == flow) edges.now }
{
    edges.iter().position(|edge| edge.flow == flow)
}

// The place of the first regulator of a port before and a class.
fn inside_of(inside: &[Inside], from: u8, class: u8) -> Option<usize>
    ensures { result ≡ position (λ inner. inner.from == from && inner.class == class) inside.now }
{
    inside
        .iter()
        .position(|inner| inner.from == from && inner.class == class)
}
