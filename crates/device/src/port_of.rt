// A port of a plan, with nothing on its way.
ghost use Rattle.std.specs.Prelude.{◌≡◌, IfOk, OnErr, [], replicate};
ghost use Rattle.queues.specs.Held.{Holds};
ghost use Rattle.bridge.specs.Held.{state_of};
ghost use Rattle.admission.specs.Plans.{plan_of};
ghost use Rattle.device.specs.Starts.{port_at_start};
ghost use Rattle.device.specs.Laws.{classes_in, PlanLaws};

use super::edges::edges_of;
use super::inside::inside_of;
use super::levels_of::levels_of;
use admission::plan::Plan;
use bridge::egress_port::EgressPort;
use queues::cell::Cell;
use std::alloc::{AllocError, Global};

// The port of this number, with a regulator for each flow that enters the net there, one for each port before and class
// that a flow comes from, full levels, and nothing in its part of the memory. Where memory ends, that part stays as it was.
// The laws say that each flow over the port has its regulator and no other stands there, and that, with a cell for each
// tick that the queues need, all that is said of one port with the regulators before it holds here.
#[tactic(auto, using(crate::proofs::PlanLaws::few_flows, crate::proofs::PlanLaws::gates_made))]
pub fn port_of(
    heap: Global,
    plan: &Plan,
    port: u8,
    memory: &mut [Cell],
) -> Result<EgressPort, AllocError>
    ensures state { IfOk result (λ made. state_of made (replicate 8 []) ≡ port_at_start (plan_of plan.now) port) }
    ensures held { IfOk result (λ made. Holds made.queues memory.new (replicate 8 [])) }
    ensures kept { OnErr result (memory.new ≡ memory.old) }
    ensures laws { PlanLaws (plan_of plan.now) port }
{
    let flows = plan.flows.as_slice();
    let edges = edges_of(heap, flows, port)?;
    let inside = inside_of(heap, plan, port)?;
    let levels = levels_of(heap, flows)?;
    Ok(EgressPort::new(edges, inside, levels, memory))
}

// The class of each admitted flow, by its place.
pub fn classes_of(heap: Global, plan: &Plan) -> Result<Vec<u8>, AllocError>
    ensures { IfOk result (λ classes. classes.items ≡ classes_in (plan_of plan.now)) }
{
    plan.flows
        .iter()
        .map(|numbered| numbered.flow.class)
        .collect(heap)
}

#[cfg(test)]
mod tests {
    use super::*;
    use admission::refusal::Numbered;
    use flows::flow::Flow;
    use flows::net::Net;
    use flows::port::Port;
    use lines::packet::Packet;

    #[test]
    fn makes_a_port_with_the_regulator_of_its_flow(rt: HostRuntime) {
        let net = Net {
            ports: [Port::default(); 64],
            count: 1,
            memory: [100; 255],
            switches: 1,
        };
        let flow = Flow {
            class: 3,
            longest: 10,
            burst: 20,
            rate: 1_000,
            deadline: 30,
            road: [0; 16],
            hops: 1,
        };
        let mut plan = Plan::new(rt.alloc(), net).expect(&rt, "memory");
        let admitted = plan.admit(Numbered { number: 7, flow });
        assert!(rt; admitted.is_ok());

        let classes = classes_of(rt.alloc(), &plan);
        assert!(rt; classes.is_ok_and(|classes| classes.as_slice() == [3].as_slice()));
        let mut memory = [Cell {
            packet: Packet::default(),
            next: 0,
        }; 20];
        let made = port_of(rt.alloc(), &plan, 0, &mut memory);
        assert!(rt;
            made.is_ok_and(|port| port.edges.len() == 1
                && port.inside.len() == 0
                && port.levels.len() == 1)
        );
    }
}
