// What the ports of a net promise, from the sums that are kept for each.
ghost use Rattle.std.specs.Prelude.{◌≡◌, ◌≤◌, take, replicate, IfSome, slice_index_or};
ghost use Rattle.std.specs.Option.{option_map};
ghost use Rattle.flows.specs.Models.{net_of, flow_of};
ghost use Rattle.promises.specs.Loads.{no_load, loads_with, loads_until, loads_along, longest_promise, loads_promise, loads_dues};
ghost use Rattle.promises.specs.Models.{load_model, loads_model};

use super::load::Load;
use super::loads::Loads;
use super::per_port::PerPort;
use flows::flow::Flow;
use flows::net::Net;

impl Loads {
    // Nothing is asked of any port.
    pub fn none() -> Self
        ensures { loads_model result ≡ replicate 64 no_load }
    {
        Loads {
            ports: PerPort::all(Load::none()),
        }
    }

    // What a port promises a class; past the last port as where nothing is asked.
    pub fn promise(&self, port: u8, class: u8) -> Option<u64>
        ensures value { result ≡ loads_promise (loads_model self.now) port class }
        ensures small { IfSome result (λ n. n ≤ longest_promise) }
    {
        self.at(port).promise(class)
    }

    // What a flow is due up to each port of its road; None where a port has no promise for it. A table as long as a road
    // may be, of which the road's length is in use: so it cannot fail for want of memory.
    pub fn dues(&self, net: &Net, flow: &Flow) -> Option<[u64; 16]>
        ensures { option_map (take flow.now.hops) result ≡ loads_dues (net_of net.now) (loads_model self.now) flow.now.class 0 (flow_of flow.now).road }
    {
        let mut dues = [0; 16];
        let mut ticks: u64 = 0;
        // By the index, since nothing would be known of what a `zip` with `iter_mut` wrote.
        for (i, port) in flow.road().iter().enumerate() {
            let due = ticks + self.promise(*port, flow.class)?;
            dues[i] = due;
            ticks = due + u64::from(net.port(*port).wire);
        }
        Some(dues)
    }

    // One flow more at each port of its road; None where a sum would pass 32 bits.
    pub fn with(&self, flow: &Flow) -> Option<Loads>
        ensures { option_map loads_model result ≡ loads_with (flow_of flow.now) (flow_of flow.now).road (loads_model self.now) }
    {
        let mut loads = *self;
        loads.add(flow)?;
        Some(loads)
    }

    // The same in place; where it is None, the ports before have the flow already. Nothing but that it does not fit can be
    // said, as of `checked_add`.
    pub fn add(&mut self, flow: &Flow) -> Option<()>
        ensures left { loads_model self.new ≡ loads_until (flow_of flow.now) (flow_of flow.now).road (loads_model self.old) }
        ensures told { option_map (λ _. loads_model self.new) result ≡ loads_with (flow_of flow.now) (flow_of flow.now).road (loads_model self.old) }
    {
        for port in flow.road() {
            let load = self.at(*port).with(flow)?;
            self.ports.put(*port, load);
        }
        Some(())
    }

    // What another table says of the ports of a road.
    pub fn follow(&mut self, other: &Loads, road: &[u8])
        ensures { loads_model self.new ≡ loads_along road.now (loads_model other.now) (loads_model self.old) }
    {
        for port in road {
            self.ports.put(*port, other.at(*port));
        }
    }

    // What is asked of a port; nothing past the last one.
    #[tactic(auto, using(crate::proofs::TableLaws::of_port))]
    pub fn at(&self, port: u8) -> Load
        ensures { load_model result ≡ slice_index_or (loads_model self.now) port no_load }
    {
        self.ports.get(port).copied().unwrap_or_default()
    }
}
