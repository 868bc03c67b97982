// What goes on from one port to the next, kept for the regulators between them.
ghost use Rattle.std.specs.Prelude.{◌≡◌, replicate};
ghost use Rattle.std.specs.Option.{option_map};
ghost use Rattle.flows.specs.Models.{flow_of};
ghost use Rattle.promises.specs.Loads.{no_load, pair_at, put_pair, pairs_with, pairs_until, pairs_along};
ghost use Rattle.promises.specs.Models.{load_model, pairs_model};

use super::load::Load;
use super::loads::Loads;
use super::pairs::Pairs;
use super::per_port::PerPort;
use flows::flow::Flow;

// Method for method as a table of one index, `Loads`, but over definitions of two: one type for both would be told at which
// of them it stands by a trait that is longer than the methods.
impl Pairs {
    // Nothing goes on from any port.
    pub fn none() -> Self
        ensures { pairs_model result ≡ replicate 64 (replicate 64 no_load) }
    {
        Pairs {
            from: PerPort::all(Loads::none()),
        }
    }

    // One flow more from each port of its road to the next; None where a sum would pass 32 bits.
    pub fn with(&self, flow: &Flow) -> Option<Pairs>
        ensures { option_map pairs_model result ≡ pairs_with (flow_of flow.now) (flow_of flow.now).road (pairs_model self.now) }
    {
        let mut pairs = *self;
        pairs.add(flow)?;
        Some(pairs)
    }

    // The same in place, as of loads. Nothing but that it does not fit can be said, as of `checked_add`.
    pub fn add(&mut self, flow: &Flow) -> Option<()>
        ensures left { pairs_model self.new ≡ pairs_until (flow_of flow.now) (flow_of flow.now).road (pairs_model self.old) }
        ensures told { option_map (λ _. pairs_model self.new) result ≡ pairs_with (flow_of flow.now) (flow_of flow.now).road (pairs_model self.old) }
    {
        for hop in flow.road().windows(2) {
            let load = self.pair(hop[0], hop[1]).with(flow)?;
            self.put(hop[0], hop[1], load);
        }
        Some(())
    }

    // What others say between each port of a road and the next.
    pub fn follow(&mut self, other: &Pairs, road: &[u8])
        ensures { pairs_model self.new ≡ pairs_along road.now (pairs_model other.now) (pairs_model self.old) }
    {
        for hop in road.windows(2) {
            self.put(hop[0], hop[1], other.pair(hop[0], hop[1]));
        }
    }

    // What goes from one port directly to another. A match, since with `map` and a closure the check did not find it.
    #[tactic(auto, using(crate::proofs::TableLaws::of_port))]
    pub fn pair(&self, p: u8, q: u8) -> Load
        ensures { load_model result ≡ pair_at (pairs_model self.now) p q }
    {
        match self.from.get(p) {
            Some(loads) => loads.at(q),
            None => Load::none(),
        }
    }

    // Past the last port nothing changes. By the index, as `put` of one table.
    fn put(&mut self, p: u8, q: u8, load: Load)
        ensures { pairs_model self.new ≡ put_pair (pairs_model self.old) p q (load_model load) }
    {
        let place = usize::from(p);
        if place < 64 {
            let rows = &mut self.from.each;
            rows[place].ports.put(q, load);
        }
    }
}
