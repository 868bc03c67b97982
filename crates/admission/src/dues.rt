// What the admitted flows are due.
ghost use Rattle.std.specs.Prelude.{◌≡◌};
ghost use Rattle.std.specs.Option.{option_map};
ghost use Rattle.flows.specs.Models.{flow_of};
ghost use Rattle.admission.specs.Dues.{flow_numbered, dues_model, dues_numbered};
ghost use Rattle.admission.specs.Plans.{plan_of};

use super::due::Dues;
use super::plan::Plan;
use flows::flow::Flow;

impl Plan {
    // The admitted flow of this number.
    pub fn numbered(&self, number: u64) -> Option<Flow>
        ensures { option_map flow_of result ≡ flow_numbered (plan_of self.now).flows number }
    {
        self.flows
            .iter()
            .find(|numbered| numbered.number == number)
            .map(|numbered| numbered.flow)
    }

    // What the admitted flow of this number is due up to each port of its road, with all flows of the plan. No port of
    // its road is without a promise.
    pub fn dues(&self, number: u64) -> Option<Dues>
        ensures { option_map dues_model result ≡ dues_numbered (plan_of self.now) number }
    {
        let flow = self.numbered(number)?;
        let ticks = self.demand.as_ref().loads.dues(&self.net, &flow)?;
        Some(Dues { flow, ticks })
    }
}
