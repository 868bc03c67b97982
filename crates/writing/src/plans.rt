// Nets and flows.
ghost use Rattle.flows.specs.NetFormat.{port_bytes, net_bytes};
ghost use Rattle.flows.specs.FlowFormat.{flow_bytes};
ghost use Rattle.flows.specs.Models.{net_of, flow_of};

use super::written::{Written, put_all};
use flows::flow::Flow;
use flows::net::Net;
use flows::port::Port;
use record_bytes::kind::Kind;
use std::alloc::AllocError;

impl Written for Flow {
    ghost bytes = { λ flow. flow_bytes (flow_of flow) };

    #[tactic(auto, using(crate::proofs::Fronts::begun_after, crate::proofs::Fronts::begun_not))]
    fn put(&self, out: &mut Vec<u8>) -> Result<(), AllocError> {
        Kind::Flow.put(out)?;
        self.class.put(out)?;
        self.longest.put(out)?;
        self.burst.put(out)?;
        self.rate.put(out)?;
        self.deadline.put(out)?;
        self.hops.put(out)?;
        out.extend_from_slice(self.road())?;
        Ok(())
    }
}

impl Written for Port {
    ghost bytes = { port_bytes };

    fn put(&self, out: &mut Vec<u8>) -> Result<(), AllocError> {
        self.switch.put(out)?;
        self.ends.put(out)?;
        self.wire.put(out)
    }
}

impl Written for Net {
    ghost bytes = { λ net. net_bytes (net_of net) };

    #[tactic(auto, using(crate::proofs::Fronts::shorter_front))]
    fn put(&self, out: &mut Vec<u8>) -> Result<(), AllocError> {
        Kind::Net.put(out)?;
        self.count.put(out)?;
        put_all(self.ports(), out)?;
        self.switches.put(out)?;
        put_all(self.memories(), out)
    }
}
