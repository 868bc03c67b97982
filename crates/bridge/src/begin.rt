// A port at the beginning.
ghost use Rattle.std.specs.Prelude.{◌≡◌, ◌++◌, [], map, replicate};
ghost use Rattle.levels.specs.Models.{level_model};
ghost use Rattle.queues.specs.Held.{Holds};
ghost use Rattle.bridge.specs.Held.{edge_state, inside_state, state_of, port_with};
ghost use Rattle.bridge.specs.Runs.{StartsWith};

use super::egress_port::EgressPort;
use super::regulated::{Edge, Inside};
use levels::level::Level;
use queues::cell::Cell;
use queues::queues_of::Queues;

impl EgressPort {
    // With these regulators before it, and these levels. Nothing is in its queues, all cells are free, and it is not sending.
    pub fn new(
        edges: Vec<Edge>,
        inside: Vec<Inside>,
        levels: Vec<Level>,
        memory: &mut [Cell],
    ) -> Self
        ensures empty { Holds result.queues memory.new (replicate 8 []) }
        ensures starts { StartsWith (map edge_state edges.items ++ map inside_state inside.items) (map level_model levels.items) (state_of result (replicate 8 [])) }
        ensures made { result ≡ port_with edges inside levels result.queues }
    {
        EgressPort {
            edges,
            inside,
            levels,
            queues: Queues::empty(memory),
            sending: None,
        }
    }
}
