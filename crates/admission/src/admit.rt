// Admission of flows, one after the other.
ghost use Rattle.std.specs.Prelude.{◌≡◌, [], true, None, IfOk, IfErr, MatchOption, alloc_error};
ghost use Rattle.flows.specs.Models.{net_of};
ghost use Rattle.admission.specs.Plans.{plan_of, empty_plan, Answered};
ghost use Rattle.admission.specs.Models.{numbered_model};
ghost use Rattle.admission.specs.Sound.{keeps_demand};
ghost use Rattle.admission.specs.declared.refusal.NotAdmitted.TheVariants.{OutOfMemory};

use super::judge::judge;
use super::plan::Plan;
use super::refusal::{NotAdmitted, Numbered, Refusal};
use super::tests_of::MOST_FLOWS;
use flows::net::Net;
use promises::demand::Demand;
use std::alloc::{AllocError, Global};

impl Plan {
    // A net to which no flow is admitted.
    pub fn new(heap: Global, net: Net) -> Result<Self, AllocError>
        ensures { IfOk result (λ p. plan_of p ≡ empty_plan (net_of net)) }
    {
        let demand = Box::new(heap, Demand::none())?;
        Ok(Plan {
            net,
            flows: Vec::new(heap),
            demand,
            tried: None,
        })
    }

    // One flow more, if all that is promised then holds. A refusal changes nothing.
    pub fn admit(&mut self, new: Numbered) -> Result<(), NotAdmitted>
        ensures { Answered (plan_of self.old) (numbered_model new) (plan_of self.new) result }
    {
        if !self.net.has_road(new.flow.road()) {
            return Err(Refusal::Road.into());
        }
        if self.flows.len() >= MOST_FLOWS {
            return Err(Refusal::Crowded.into());
        }
        let mut tried = to_try_on(&mut self.tried, *Box::allocator(&self.demand))?;
        if let Err(failed) = self.flows.push(new) {
            self.tried = Some(tried);
            return Err(failed.into());
        }
        // With so few flows no sum passes 32 bits, and none is missing. By `let`, since what the plan keeps where `ok_or`
        // and `?` return could be proved only under a name that the check makes up.
        let Some(()) = tried.as_mut().add(&new.flow) else {
            return Err(Refusal::Crowded.into());
        };
        let judged = judge(&self.net, tried.as_ref(), self.flows.as_slice());
        if let Err(refusal) = judged {
            self.flows.pop();
            tried.as_mut().follow(self.demand.as_ref(), new.flow.road());
            self.tried = Some(tried);
            return Err(refusal.into());
        }
        self.demand.as_mut().follow(tried.as_ref(), new.flow.road());
        self.tried = Some(tried);
        Ok(())
    }
}

// What a flow is tried on: the sums that are there, which are taken, or empty ones for the first flow.
fn to_try_on(tried: &mut Option<Box<Demand>>, heap: Global) -> Result<Box<Demand>, NotAdmitted>
    ensures taken { tried.new ≡ None }
    ensures value { IfOk result (λ t. MatchOption tried.old (keeps_demand t.value [] ≡ true) (λ there. t ≡ there)) }
    ensures failed { IfErr result (λ e. (e ≡ OutOfMemory alloc_error) × (tried.old ≡ None)) }
{
    if let Some(there) = tried.take() {
        return Ok(there);
    }
    Ok(Box::new(heap, Demand::none())?)
}
