// The tests of admission, one by one.
ghost use Rattle.std.specs.Prelude.{◌≡◌, map, length, Some, None};
ghost use Rattle.std.specs.Option.{option_map};
ghost use Rattle.std.specs.Result.{result_err};
ghost use Rattle.flows.specs.Models.{net_of, flow_of};
ghost use Rattle.promises.specs.Models.{loads_model, pairs_model};
ghost use Rattle.admission.specs.declared.refusal.Refusal.TheVariants.{Promised, Late, Memory};
ghost use Rattle.admission.specs.Lowest.{lowest};
ghost use Rattle.admission.specs.Models.{numbered_model};
ghost use Rattle.admission.specs.Tests.{over_promised, is_late, first_late, is_short, crowded};

use super::refusal::{Numbered, Refusal};
use flows::flow::Flow;
use flows::net::Net;
use memory::needs::switch_need;
use promises::demand::Demand;
use promises::port::DEN;

// So many flows may be admitted together.
pub(crate) const MOST_FLOWS: usize = 256;

// Whether a port is promised more than all of itself.
fn is_promised(demand: &Demand, port: u8) -> bool
    ensures { result ≡ over_promised (loads_model demand.now.loads) port }
{
    DEN < demand.loads.at(port).rates_together()
}

// Whether a flow is due after its deadline.
fn is_late(net: &Net, demand: &Demand, flow: &Flow) -> bool
    ensures { result ≡ is_late (net_of net.now) (loads_model demand.now.loads) (flow_of flow.now) }
{
    let Some(dues) = demand.loads.dues(net, flow) else {
        return true;
    };
    // The last of the road's, in a table that may be longer.
    let last = usize::from(flow.hops) - 1;
    u64::from(flow.deadline) < dues[last]
}

// Whether a switch has not enough memory.
fn is_short(net: &Net, demand: &Demand, switch: u8) -> bool
    ensures { result ≡ is_short (net_of net.now) (loads_model demand.now.loads) (pairs_model demand.now.pairs) net.now.count switch }
{
    u128::from(net.memory_of(switch)) < switch_need(net, demand, switch)
}

// Refused for what was found, if anything.
fn refused_for(found: Option<Refusal>) -> Result<(), Refusal>
    ensures { result_err result ≡ found }
{
    found.map_or(Ok(()), Err)
}

// Refused where there are more than may be admitted together.
pub(crate) fn flows_are_few(flows: &[Numbered]) -> Result<(), Refusal>
    ensures { result_err result ≡ crowded (length flows.now) }
{
    if flows.len() > MOST_FLOWS {
        return Err(Refusal::Crowded);
    }
    Ok(())
}

// Refused where a port is promised more than all of itself: the lowest such port.
pub(crate) fn ports_suffice(net: &Net, demand: &Demand) -> Result<(), Refusal>
    ensures { result_err result ≡ option_map Promised (lowest (over_promised (loads_model demand.now.loads)) net.now.count 0) }
{
    let promised = (0..net.count).find(|port| is_promised(demand, *port));
    refused_for(promised.map(|port| Refusal::Promised { port }))
}

// Refused where a flow is due after its deadline: the first such flow.
pub(crate) fn flows_are_in_time(
    net: &Net,
    demand: &Demand,
    flows: &[Numbered],
) -> Result<(), Refusal>
    ensures { result_err result ≡ option_map Late (first_late (net_of net.now) (loads_model demand.now.loads) (map numbered_model flows.now)) }
{
    let late = flows
        .iter()
        .find(|numbered| is_late(net, demand, &numbered.flow));
    refused_for(late.map(|numbered| Refusal::Late {
        flow: numbered.number,
    }))
}

// Refused where a switch has not enough memory: the lowest such switch. As `ports_suffice`, but one for both would take the
// test and the refusal as closures, and be longer with its contract than these two lines.
pub(crate) fn switches_suffice(net: &Net, demand: &Demand) -> Result<(), Refusal>
    ensures { result_err result ≡ option_map Memory (lowest (is_short (net_of net.now) (loads_model demand.now.loads) (pairs_model demand.now.pairs) net.now.count) net.now.switches 0) }
{
    let short = (0..net.switches).find(|switch| is_short(net, demand, *switch));
    refused_for(short.map(|switch| Refusal::Memory { switch }))
}
