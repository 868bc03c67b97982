// A tick at a port: the regulators before it in turn, and then the port.
ghost use Rattle.std.specs.Prelude.{◌≡◌, ℕ, ◌+◌, ◌≤◌, min, List, map, vec_len, vec_capacity, IsOk, OnOk, OnErr};
ghost use Rattle.std.specs.List.{sum_by};
ghost use Rattle.lines.specs.declared.packet.Packet.{Packet};
ghost use Rattle.levels.specs.Models.{level_model};
ghost use Rattle.queues.specs.Held.{Holds, size};
ghost use Rattle.bridge.specs.Ports.{gates_tick, port_tick};
ghost use Rattle.bridge.specs.Held.{edge_state, inside_state, edge_coming, inside_coming, state_of, GatesTicked, PortTicked, gates_behind, behind};
ghost use Rattle.bridge.specs.Laws.{BridgeLaws};

use super::egress_port::EgressPort;
use super::regulated::{Edge, Inside};
use levels::level::Level;
use machine::phases::take;
use queues::cell::Cell;
use queues::queues_of::Queues;
use std::alloc::AllocError;

impl EgressPort {
    // What came is judged, and what may pass passes: at the edges in turn, then inside in turn. Then the port takes,
    // unless it is sending. The numbers of those refused go behind those that are there, in the order of the regulators.
    // Where memory ends, nothing changes.
    pub fn tick(
        &mut self,
        classes: &[u8],
        tick: u64,
        memory: &mut [Cell],
        refused: &mut Vec<u64>,
    ) -> Result<(), AllocError>
        ensures kept { OnErr result ((self.new ≡ self.old) × (memory.new ≡ memory.old) × (refused.new.items ≡ refused.old.items)) }
        ensures ticks { (ls : List (List Packet)) → Holds self.old.queues memory.old ls → OnOk result (PortTicked self.new memory.new refused.new.items (behind refused.old.items (port_tick (size memory.old) classes.now tick (state_of self.old ls)))) }
        ensures laws { BridgeLaws }
    {
        // room for all numbers first, so that nothing fails half done
        let at_edge = coming_to_edges(&self.edges);
        let inside = coming_to_inside(&self.inside);
        refused.reserve(at_edge.saturating_add(inside))?;
        tick_edges(
            self.edges.as_mut_slice(),
            classes,
            tick,
            self.levels.as_mut_slice(),
            &mut self.queues,
            memory,
            refused,
        )?;
        tick_inside(
            self.inside.as_mut_slice(),
            classes,
            tick,
            self.levels.as_mut_slice(),
            &mut self.queues,
            memory,
            refused,
        )?;
        self.sending = take(self.sending, &mut self.queues, memory, tick);
        Ok(())
    }
}

// The regulators at the edge, one after the other.
fn tick_edges(
    edges: &mut [Edge],
    classes: &[u8],
    tick: u64,
    levels: &mut [Level],
    queues: &mut Queues,
    memory: &mut [Cell],
    refused: &mut Vec<u64>,
) -> Result<(), AllocError>
    ensures room { (n : ℕ) → vec_len refused.old + sum_by edge_coming edges.old + n ≤ vec_capacity refused.old → IsOk result × (vec_len refused.new + n ≤ vec_capacity refused.new) }
    ensures ticks { (ls : List (List Packet)) → Holds queues.old memory.old ls → OnOk result (GatesTicked (map edge_state edges.new) levels.new queues.new memory.new refused.new.items (gates_behind refused.old.items (gates_tick (size memory.old) classes.now tick (map edge_state edges.old) (map level_model levels.old) ls))) }
{
    for edge in edges.iter_mut() {
        edge.gate
            .tick(classes, tick, levels, queues, memory, refused)?;
    }
    Ok(())
}

// The regulators inside, one after the other.
fn tick_inside(
    inside: &mut [Inside],
    classes: &[u8],
    tick: u64,
    levels: &mut [Level],
    queues: &mut Queues,
    memory: &mut [Cell],
    refused: &mut Vec<u64>,
) -> Result<(), AllocError>
    ensures room { (n : ℕ) → vec_len refused.old + sum_by inside_coming inside.old + n ≤ vec_capacity refused.old → IsOk result × (vec_len refused.new + n ≤ vec_capacity refused.new) }
    ensures ticks { (ls : List (List Packet)) → Holds queues.old memory.old ls → OnOk result (GatesTicked (map inside_state inside.new) levels.new queues.new memory.new refused.new.items (gates_behind refused.old.items (gates_tick (size memory.old) classes.now tick (map inside_state inside.old) (map level_model levels.old) ls))) }
{
    for inner in inside.iter_mut() {
        inner
            .gate
            .tick(classes, tick, levels, queues, memory, refused)?;
    }
    Ok(())
}

// How many come to the edges in this tick; at most the largest number.
fn coming_to_edges(edges: &[Edge]) -> usize
    ensures { result ≡ min (sum_by edge_coming edges.now) 18446744073709551615 }
{
    edges.iter().fold(0, |n: usize, edge| n.saturating_add(edge.gate.coming.len()))
}

// And how many inside.
fn coming_to_inside(inside: &[Inside]) -> usize
    ensures { result ≡ min (sum_by inside_coming inside.now) 18446744073709551615 }
{
    inside.iter().fold(
        0,
        |n: usize, inner| n.saturating_add(inner.gate.coming.len()),
    )
}
