// What a port promises, from the sums that are kept for it.
ghost use Rattle.std.specs.Prelude.{◌≡◌, ◌+◌, ◌-◌, ◌*◌, ◌/◌, ◌<◌, ◌≤◌, ◌&&◌, IfSome, if◌then◌else◌, Some, None, max, nat_le, nat_lt, slice_index};
ghost use Rattle.std.specs.Option.{option_map};
ghost use Rattle.flows.specs.Models.{flow_of};
ghost use Rattle.promises.specs.Loads.{no_load, load_with, load_bursts, load_before, load_long, load_promise, load_fits, longest_promise, total};
ghost use Rattle.promises.specs.Laws.{PromiseLaws};
ghost use Rattle.promises.specs.Models.{load_model};

use super::load::{Asked, Load};
use flows::flow::Flow;

// All of a port, in millionths.
pub const DEN: u64 = 1_000_000;

impl Load {
    // Nothing is asked.
    pub fn none() -> Self
        ensures { load_model result ≡ no_load }
    {
        Load::default()
    }

    // What is asked in one class; nothing for what is no class.
    pub fn of_class(&self, class: u8) -> Asked
        ensures bursts { result.bursts ≡ slice_index (load_model self.now).bursts class }
        ensures rates { result.rates ≡ slice_index (load_model self.now).rates class }
        ensures longest { result.longest ≡ slice_index (load_model self.now).longest class }
        ensures none { 7 < class → (result.bursts ≡ 0) × (result.rates ≡ 0) }
    {
        self.classes
            .get(usize::from(class))
            .copied()
            .unwrap_or_default()
    }

    // Bursts of a class or lower. That it is a class is tested once, in `promise`; what stands below takes it as given.
    fn bursts_up_to(&self, class: u8) -> u64
        requires { class ≤ 7 }
        ensures value { result ≡ load_bursts (load_model self.now) class }
        ensures small { result ≤ 34359738360 }
    {
        self.classes[..=usize::from(class)]
            .iter()
            .map(|asked| u64::from(asked.bursts))
            .sum()
    }

    // Rates of classes below this one. A chain of its own: one for both sums would take the field as a closure, and say in
    // its contract what any such closure reads, which is longer than the chain.
    fn rates_below(&self, class: u8) -> u64
        requires { class ≤ 8 }
        ensures value { result ≡ load_before (load_model self.now) class }
        ensures small { result ≤ 34359738360 }
    {
        self.classes[..usize::from(class)]
            .iter()
            .map(|asked| u64::from(asked.rates))
            .sum()
    }

    // The longest packet of classes above this one.
    fn longest_above(&self, class: u8) -> u8
        requires { class ≤ 7 }
        ensures { result ≡ load_long (load_model self.now) class }
    {
        let next = usize::from(class) + 1;
        self.classes[next..]
            .iter()
            .map(|asked| asked.longest)
            .max()
            .unwrap_or(0)
    }

    // What the port promises a class of 0 to 7; None where all of the port is promised to classes below it, and for
    // what is no class.
    #[tactic(auto, using(crate::proofs::PromiseLaws::promise_laws))]
    pub fn promise(&self, class: u8) -> Option<u64>
        ensures value { result ≡ (if nat_le class 7 then load_promise (load_model self.now) class else None) }
        ensures small { IfSome result (λ n. n ≤ longest_promise) }
        ensures laws { PromiseLaws }
    {
        if class > 7 {
            return None;
        }
        let before = self.rates_below(class);
        if before >= DEN {
            return None;
        }
        let ticks = u64::from(self.longest_above(class)) + self.bursts_up_to(class);
        Some(share(ticks, before))
    }

    // One flow more; None where a sum would pass 32 bits.
    pub fn with(&self, flow: &Flow) -> Option<Load>
        ensures { option_map load_model result ≡ (if load_fits (load_model self.now) (flow_of flow.now) then Some (load_with (load_model self.now) (flow_of flow.now)) else None) }
    {
        let class = usize::from(flow.class);
        let mut load = *self;
        load.classes[class] = load.classes[class].with(flow)?;
        Some(load)
    }

    // All rates at the port together.
    pub fn rates_together(&self) -> u64
        ensures { result ≡ total (load_model self.now).rates }
    {
        self.rates_below(8)
    }

    // What is set aside for the port: all bursts together.
    pub fn need(&self) -> u64
        ensures { result ≡ total (load_model self.now).bursts }
    {
        self.bursts_up_to(7)
    }
}

impl Asked {
    // One flow more; None where a sum would pass 32 bits.
    fn with(&self, flow: &Flow) -> Option<Asked>
        ensures { result ≡ (if nat_lt (self.now.bursts + flow.now.burst) 4294967296 && nat_lt (self.now.rates + flow.now.rate) 4294967296 then Some (record { bursts = self.now.bursts + flow.now.burst; rates = self.now.rates + flow.now.rate; longest = max self.now.longest flow.now.longest }) else None) }
    {
        Some(Asked {
            bursts: self.bursts.checked_add(u32::from(flow.burst))?,
            rates: self.rates.checked_add(flow.rate)?,
            longest: self.longest.max(flow.longest),
        })
    }
}

// Ticks of sending, where only what is left of the port sends them, rounded down.
fn share(ticks: u64, before: u64) -> u64
    requires { (before < 1000000) × (ticks ≤ 34359738615) }
    ensures value { result ≡ ticks * 1000000 / (1000000 - before) }
    ensures small { result ≤ longest_promise }
{
    ticks * DEN / (DEN - before)
}
