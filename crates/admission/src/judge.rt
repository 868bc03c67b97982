// What flows fail together.
ghost use Rattle.std.specs.Prelude.{◌≡◌, map};
ghost use Rattle.std.specs.Result.{result_err};
ghost use Rattle.flows.specs.Models.{net_of};
ghost use Rattle.promises.specs.Models.{loads_model, pairs_model};
ghost use Rattle.admission.specs.Laws.{AdmissionLaws};
ghost use Rattle.admission.specs.Lowest.{LowestLaw};
ghost use Rattle.admission.specs.Models.{numbered_model};
ghost use Rattle.admission.specs.Tests.{judged};

use super::refusal::{Numbered, Refusal};
use super::tests_of::{flows_are_few, flows_are_in_time, ports_suffice, switches_suffice};
use flows::net::Net;
use promises::demand::Demand;

// The first test that these flows fail together, by the sums that are kept for them. The laws say that the lowest of a
// range is the lowest, and that these tests are the rules of admission.
#[tactic(auto, using(crate::proofs::LowestLaws::lowest_law, crate::proofs::RuleLaws::admission_laws))]
pub fn judge(net: &Net, demand: &Demand, flows: &[Numbered]) -> Result<(), Refusal>
    ensures value { result_err result ≡ judged (net_of net.now) net.now.count net.now.switches (loads_model demand.now.loads) (pairs_model demand.now.pairs) (map numbered_model flows.now) }
    ensures law { LowestLaw × AdmissionLaws }
{
    flows_are_few(flows)?;
    ports_suffice(net, demand)?;
    flows_are_in_time(net, demand, flows)?;
    switches_suffice(net, demand)
}
