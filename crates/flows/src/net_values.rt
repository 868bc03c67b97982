// What is asked of a net.
ghost use Rattle.std.specs.Prelude.{◌≡◌, slice_index};
ghost use Rattle.flows.specs.Net.{port_at, no_net, together};
ghost use Rattle.flows.specs.Models.{net_of};

use super::net::Net;
use super::port::Port;

impl Net {
    // No ports and no switches.
    pub fn none() -> Self
        ensures { net_of result ≡ no_net }
    {
        Net {
            ports: [Port::default(); 64],
            count: 0,
            memory: [0; 255],
            switches: 0,
        }
    }

    // The ports that there are. As the memories, and the road of a flow, the beginning of a table: its owner alone knows how long.
    pub fn ports(&self) -> &[Port]
        ensures { result.now ≡ (net_of self.now).ports }
    {
        &self.ports[..usize::from(self.count)]
    }

    // The memories of the switches that there are.
    pub fn memories(&self) -> &[u32]
        ensures { result.now ≡ (net_of self.now).memories }
    {
        &self.memory[..usize::from(self.switches)]
    }

    // The port of this number; one of zeros where there is none.
    pub fn port(&self, number: u8) -> Port
        ensures { result ≡ port_at (net_of self.now) number }
    {
        self.ports()
            .get(usize::from(number))
            .copied()
            .unwrap_or_default()
    }

    // The memory of a switch; none where there is no such switch. A function for this table and that of the ports would
    // only hide the chain.
    pub fn memory_of(&self, switch: u8) -> u32
        ensures { result ≡ slice_index (net_of self.now).memories switch }
    {
        self.memories()
            .get(usize::from(switch))
            .copied()
            .unwrap_or_default()
    }

    // The memories of all switches together, in ticks.
    pub fn memory_together(&self) -> u64
        ensures { result ≡ together (net_of self.now).memories }
    {
        self.memories()
            .iter()
            .map(|memory| u64::from(*memory))
            .sum()
    }
}
