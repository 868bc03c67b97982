// Where roads begin and go on.
ghost use Rattle.std.specs.Prelude.{◌≡◌, ◌==◌, ◌&&◌, map};
ghost use Rattle.flows.specs.Models.{flow_of};
ghost use Rattle.promises.specs.Promises.{goes};
ghost use Rattle.admission.specs.Models.{numbered_model};
ghost use Rattle.admission.specs.Rules.{flows_of};
ghost use Rattle.device.specs.Starts.{begins_at, some_goes};

use admission::refusal::Numbered;
use flows::flow::Flow;

// Whether a flow of a class goes from one port directly to another.
pub(crate) fn some_goes(flows: &[Numbered], from: u8, to: u8, class: u8) -> bool
    ensures { result ≡ some_goes from to class (flows_of (map numbered_model flows.now)) }
{
    flows
        .iter()
        .any(|numbered| is_between(&numbered.flow, from, to, class))
}

// Whether a flow is of a class and goes from one port directly to another.
fn is_between(flow: &Flow, from: u8, to: u8, class: u8) -> bool
    ensures { result ≡ (flow.now.class == class && goes from to (flow_of flow.now).road) }
{
    flow.class == class && goes(flow.road(), from, to)
}

// Whether a road goes from one port directly to another. Step by step, as `Net::has_road`: a port is judged by what is behind it.
#[tactic(auto, using(crate::proofs::StartLaws::goes_step), unfolding(promises::specs::Promises::goes))]
fn goes(road: &[u8], from: u8, to: u8) -> bool
    ensures { result ≡ goes from to road.now }
{
    let mut rest = road;
    while let Some((port, behind)) = rest.split_first() {
        if *port == from && begins_at(behind, to) {
            return true;
        }
        rest = behind;
    }
    false
}

// Whether a road begins at a port.
pub(crate) fn begins_at(road: &[u8], port: u8) -> bool
    ensures { result ≡ begins_at port road.now }
{
    road.first().is_some_and(|first| *first == port)
}
