// Needs of memory, from the sums that are kept. Those of flows that can be admitted fit 64 bits. They are counted in 128,
// since a table may hold more than such flows ask for, and no need of any table can pass this type.
ghost use Rattle.std.specs.Prelude.{◌≡◌, ◌*◌, ◌^◌, ◌<◌, ◌≤◌, if◌then◌else◌, ◌==◌};
ghost use Rattle.flows.specs.Net.{port_at};
ghost use Rattle.flows.specs.Models.{net_of};
ghost use Rattle.promises.specs.Models.{load_model, loads_model, pairs_model};
ghost use Rattle.memory.specs.Plans.{NeedsKept};
ghost use Rattle.memory.specs.Growth.{GrowthLaws};
ghost use Rattle.memory.specs.Fit.{NeedsFit, aside_by, AsideKept};
ghost use Rattle.memory.specs.Needs.{ticks_within, class_need, class_needs, regulator_needs, whole_need, switch_needs};

use flows::net::Net;
use promises::demand::Demand;
use promises::load::Load;
use promises::port::DEN;

// What may wait in a regulator: bursts, and what the rates bring within a window, rounded up once. The law says that
// the needs are those of the flows, that one flow more shortens none, and that all fit 64 bits if flows can be admitted.
#[tactic(auto, using(crate::proofs::NeedLaws::needs_kept, crate::proofs::GrowthLaws::growth_laws, crate::proofs::FitLaws::needs_fit))]
fn ticks_within(bursts: u32, rates: u32, window: u64) -> u128
    ensures law { NeedsKept × GrowthLaws × NeedsFit }
    ensures value { result ≡ ticks_within bursts rates window }
    ensures small { result < 2 ^ 97 }
{
    let all = u128::from(DEN);
    (all * u128::from(bursts) + u128::from(rates) * u128::from(window)).div_ceil(all)
}

// A regulator of one class between two ports. Most have no flow, and need nothing.
fn class_need(port: &Load, pair: &Load, class: u8) -> u128
    ensures value { result ≡ class_need (load_model port.now) (load_model pair.now) class }
    ensures small { result < 2 ^ 97 }
{
    let asked = pair.of_class(class);
    if asked.bursts == 0 && asked.rates == 0 {
        return 0;
    }
    let window = port.promise(class).unwrap_or(0);
    ticks_within(asked.bursts, asked.rates, window)
}

// What is set aside for the regulator of a class between two ports: what it needs, and where that does not fit 32 bits the
// largest number that does. The law says that of flows that can be admitted it is what they need.
#[tactic(auto, using(crate::proofs::FitLaws::aside_kept))]
pub fn regulator_need(demand: &Demand, from: u8, to: u8, class: u8) -> u32
    ensures value { result ≡ aside_by (loads_model demand.now.loads) (pairs_model demand.now.pairs) from to class }
    ensures law { AsideKept }
{
    let need = class_need(&demand.loads.at(from), &demand.pairs.pair(from, to), class);
    u32::try_from(need).unwrap_or(u32::MAX)
}

// The regulators of all classes between two ports.
#[tactic(auto, unfolding(crate::specs::Needs::class_needs))]
fn pair_need(port: &Load, pair: &Load) -> u128
    ensures value { result ≡ class_needs (load_model port.now) (load_model pair.now) 8 }
    ensures small { result ≤ 8 * 2 ^ 97 }
{
    (0..8u8).map(|class| class_need(port, pair, class)).sum()
}

// All regulators before a port.
#[tactic(auto, unfolding(crate::specs::Needs::regulator_needs))]
fn regulators_need(demand: &Demand, q: u8) -> u128
    ensures value { result ≡ regulator_needs (loads_model demand.now.loads) (pairs_model demand.now.pairs) q 64 }
    ensures small { result ≤ 512 * 2 ^ 97 }
{
    (0..64u8)
        .map(|p| pair_need(&demand.loads.at(p), &demand.pairs.pair(p, q)))
        .sum()
}

// A port: its queues and the regulators before it.
fn port_need(demand: &Demand, q: u8) -> u128
    ensures value { result ≡ whole_need (loads_model demand.now.loads) (pairs_model demand.now.pairs) q }
    ensures small { result ≤ 513 * 2 ^ 97 }
{
    u128::from(demand.loads.at(q).need()) + regulators_need(demand, q)
}

// A port, if it stands on this switch.
fn need_on(net: &Net, demand: &Demand, switch: u8, q: u8) -> u128
    ensures value { result ≡ (if (port_at (net_of net.now) q).switch == switch then whole_need (loads_model demand.now.loads) (pairs_model demand.now.pairs) q else 0) }
    ensures small { result ≤ 513 * 2 ^ 97 }
{
    if net.port(q).switch == switch {
        return port_need(demand, q);
    }
    0
}

// A switch: all ports of the net that stand on it.
#[tactic(auto, unfolding(crate::specs::Needs::switch_needs))]
pub fn switch_need(net: &Net, demand: &Demand, switch: u8) -> u128
    ensures { result ≡ switch_needs (net_of net.now) (loads_model demand.now.loads) (pairs_model demand.now.pairs) switch net.now.count }
{
    (0..net.count)
        .map(|q| need_on(net, demand, switch, q))
        .sum()
}
