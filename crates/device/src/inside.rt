// The regulators inside.
ghost use Rattle.std.specs.Prelude.{◌≡◌, ◌<◌, ◌≤◌, ◌++◌, IfOk, OnOk, true, map, length};
ghost use Rattle.promises.specs.Promises.{regulator_need};
ghost use Rattle.bridge.specs.Held.{inside_state};
ghost use Rattle.admission.specs.Rules.{flows_of};
ghost use Rattle.admission.specs.Plans.{plan_of};
ghost use Rattle.device.specs.Starts.{some_goes, inside_one, inside_before, at_rest};

use super::goes::some_goes;
use admission::plan::Plan;
use bridge::regulated::Inside;
use memory::needs::regulator_need;
use regulators::inner_gate::InnerGate;
use std::alloc::{AllocError, Global};

// One for each port before and class that a flow comes from, in this order.
pub(crate) fn inside_of(heap: Global, plan: &Plan, port: u8) -> Result<Vec<Inside>, AllocError>
    ensures { IfOk result (λ inside. map inside_state inside.items ≡ map at_rest (inside_before port (flows_of (plan_of plan.now).flows) (length (plan_of plan.now).net.ports))) }
{
    let mut inside = Vec::new(heap);
    for from in 0..plan.net.count {
        for class in 0..8u8 {
            add_inside(heap, plan, from, port, class, &mut inside)?;
        }
    }
    Ok(inside)
}

// The one behind a port for a class, if a flow goes through it.
fn add_inside(
    heap: Global,
    plan: &Plan,
    from: u8,
    port: u8,
    class: u8,
    inside: &mut Vec<Inside>,
) -> Result<(), AllocError>
    requires { (from < length (plan_of plan.now).net.ports) × (class ≤ 7) }
    ensures { OnOk result (map inside_state inside.new.items ≡ map inside_state inside.old.items ++ map at_rest (inside_one from port class (flows_of (plan_of plan.now).flows))) }
{
    if !some_goes(plan.flows.as_slice(), from, port, class) {
        return Ok(());
    }
    let aside = aside_of(plan, from, port, class);
    let gate = InnerGate::new(heap, aside)?;
    inside.push(Inside { from, class, gate })?;
    Ok(())
}

// What is set aside for a regulator that a flow goes through: what it needs.
#[tactic(auto, using(crate::proofs::PlanLaws::aside_told))]
fn aside_of(plan: &Plan, from: u8, port: u8, class: u8) -> u32
    requires { (from < length (plan_of plan.now).net.ports) × (class ≤ 7) × (some_goes from port class (flows_of (plan_of plan.now).flows) ≡ true) }
    ensures { result ≡ regulator_need from port class (flows_of (plan_of plan.now).flows) }
{
    regulator_need(plan.demand.as_ref(), from, port, class)
}
