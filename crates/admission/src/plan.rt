ghost use Rattle.std.specs.Prelude.{◌≡◌, true, map};
ghost use Rattle.std.specs.Option.{option_map};
ghost use Rattle.flows.specs.Models.{net_of};
ghost use Rattle.admission.specs.Models.{numbered_model};
ghost use Rattle.admission.specs.Rules.{flows_of};
ghost use Rattle.admission.specs.Sound.{keeps_demand, tried_keeps, all_roads, passes_all};

use super::refusal::Numbered;
use flows::net::Net;
use promises::demand::Demand;

// A net and the flows that are admitted to it, in the order of admission, with what they ask of it: once to keep, and
// once more to try a flow on, since a copy for each flow would take longer than all else. The second is there once a flow
// was tried. All that is promised them holds.
#[derive(Drop)]
pub struct Plan {
    pub net: Net,
    pub flows: Vec<Numbered>,
    pub demand: Box<Demand>,
    pub tried: Option<Box<Demand>>,
    ghost demand_kept: { keeps_demand demand.value (flows_of (map numbered_model flows.items)) ≡ true },
    ghost tried_kept: { tried_keeps (option_map (λ t. t.value) tried) (flows_of (map numbered_model flows.items)) ≡ true },
    ghost on_roads: { all_roads (net_of net) (flows_of (map numbered_model flows.items)) ≡ true },
    ghost fits: { passes_all (net_of net) (map numbered_model flows.items) ≡ true },
}
