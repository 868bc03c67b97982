// What flows ask of a net: of each port, and of the regulators between each two. The net is no part of it:
// what is asked changes with each flow, and the net does not.
ghost use Rattle.std.specs.Prelude.{◌≡◌, replicate};
ghost use Rattle.flows.specs.Models.{flow_of};
ghost use Rattle.promises.specs.Demands.{Grown};
ghost use Rattle.promises.specs.Loads.{no_load, loads_along, pairs_along};
ghost use Rattle.promises.specs.Models.{loads_model, pairs_model};

use super::loads::Loads;
use super::pairs::Pairs;
use flows::flow::Flow;

#[derive(Clone, Copy)]
pub struct Demand {
    pub loads: Loads,
    pub pairs: Pairs,
}

impl Demand {
    // Nothing is asked.
    pub fn none() -> Self
        ensures loads { loads_model result.loads ≡ replicate 64 no_load }
        ensures pairs { pairs_model result.pairs ≡ replicate 64 (replicate 64 no_load) }
    {
        Demand {
            loads: Loads::none(),
            pairs: Pairs::none(),
        }
    }

    // One flow more along its road, in place, since a copy is some 400 KB. None where a sum would pass 32 bits: then those
    // before it have the flow already. Nothing but that it does not fit can be said, as of `checked_add`.
    pub fn add(&mut self, flow: &Flow) -> Option<()>
        ensures { Grown self.old (flow_of flow.now) result self.new }
    {
        self.loads.add(flow)?;
        self.pairs.add(flow)
    }

    // What another says of a road, so that a flow that was added to one of two goes to the other, or is gone again.
    pub fn follow(&mut self, other: &Demand, road: &[u8])
        ensures loads { loads_model self.new.loads ≡ loads_along road.now (loads_model other.now.loads) (loads_model self.old.loads) }
        ensures pairs { pairs_model self.new.pairs ≡ pairs_along road.now (pairs_model other.now.pairs) (pairs_model self.old.pairs) }
    {
        self.loads.follow(&other.loads, road);
        self.pairs.follow(&other.pairs, road);
    }
}
