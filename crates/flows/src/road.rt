// The road of a flow through a net.
ghost use Rattle.std.specs.Prelude.{◌≡◌, ◌==◌};
ghost use Rattle.flows.specs.FlowFormat.{passes, joins};
ghost use Rattle.flows.specs.Roads.{goes_on, step_fits, leads, LeadsExactly};
ghost use Rattle.flows.specs.Net.{port_at};
ghost use Rattle.flows.specs.Models.{net_of, flow_of};

use super::flow::Flow;
use super::net::Net;

// Whether a port stands on a road.
pub(crate) fn on_road(port: u8, road: &[u8]) -> bool
    ensures { result ≡ passes port road.now }
{
    road.contains(&port)
}

// Whether a port may follow a road: as its first, or on the switch where the wire of the last one ends.
pub(crate) fn follows(net: &Net, road: &[u8], port: u8) -> bool
    ensures { result ≡ joins (net_of net.now) road.now port }
{
    road.last().is_none_or(|last| net.joins(*last, port))
}

impl Flow {
    // The ports of the road: those of the hops in use.
    pub fn road(&self) -> &[u8]
        ensures { result.now ≡ (flow_of self.now).road }
    {
        &self.road[..usize::from(self.hops)]
    }

    // Whether a port stands on the road of this flow.
    pub fn passes(&self, port: u8) -> bool
        ensures { result ≡ passes port (flow_of self.now).road }
    {
        on_road(port, self.road())
    }
}

impl Net {
    // Whether a road leads through this net: over ports that it has, none of them twice, each on the switch where the
    // wire of the one before ends. The law says that the test is passed by roads alone. By `while let`, since each port is
    // judged by those behind it: a chain would count places to cut them off.
    #[tactic(auto, unfolding(crate::specs::Roads::leads))]
    pub fn has_road(&self, road: &[u8]) -> bool
        ensures value { result ≡ leads (net_of self.now) road.now }
        ensures law { LeadsExactly }
    {
        let mut rest = road;
        while let Some((port, behind)) = rest.split_first() {
            if !self.step_fits(*port, behind) {
                return false;
            }
            rest = behind;
        }
        true
    }

    // Whether a port is one of the net, does not come again, and goes on to the next.
    fn step_fits(&self, port: u8, behind: &[u8]) -> bool
        ensures { result ≡ step_fits (net_of self.now) port behind.now }
    {
        port < self.count && !on_road(port, behind) && self.goes_on(port, behind)
    }

    // Whether the next port, if there is one, stands on the switch where the wire of this one ends.
    #[tactic(auto, using(crate::proofs::LeadLaws::goes_none, crate::proofs::LeadLaws::goes_first))]
    fn goes_on(&self, port: u8, behind: &[u8]) -> bool
        ensures { result ≡ goes_on (net_of self.now) port behind.now }
    {
        behind.first().is_none_or(|next| self.joins(port, *next))
    }

    // Whether a port stands on the switch where the wire of another ends.
    fn joins(&self, from: u8, to: u8) -> bool
        ensures { result ≡ ((port_at (net_of self.now) from).ends == (port_at (net_of self.now) to).switch) }
    {
        self.port(from).ends == self.port(to).switch
    }
}
