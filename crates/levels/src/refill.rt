// Levels refilled and spent.
ghost use Rattle.std.specs.Prelude.{◌≡◌, ◌*◌, ◌≤◌};
ghost use Rattle.std.specs.Option.{option_map};
ghost use Rattle.levels.specs.Laws.{LevelLaws};
ghost use Rattle.levels.specs.Levels.{full_of, is_rate, refilled, at_tick, passes_now, spent, wait, first_pass};
ghost use Rattle.levels.specs.Models.{level_model};

use super::level::Level;
use super::product::product;

// Millionths in a tick: a rate of so many is all of a port. As in `promises`, on which levels do not stand.
const DEN: u64 = 1_000_000;

// Ticks in which any flow fills up: the largest burst at the lowest rate.
const FILLING: u64 = 65_535_000_000;

impl Level {
    // All of the burst at tick 0; None for what is no rate.
    pub fn full(burst: u16, rate: u32) -> Option<Level>
        ensures { option_map level_model result ≡ full_of burst rate }
    {
        if !is_rate(rate) {
            return None;
        }
        Some(Level {
            burst,
            rate,
            level: DEN * u64::from(burst),
            last: 0,
        })
    }

    // What it is at a tick; before its last tick it stays as it is.
    pub fn at(self, tick: u64) -> Level
        ensures { level_model result ≡ at_tick (level_model self) tick }
    {
        if tick < self.last {
            return self;
        }
        // Each field is written: a struct with ghost fields takes no `..self`.
        Level {
            burst: self.burst,
            rate: self.rate,
            level: self.refilled(tick - self.last),
            last: tick,
        }
    }

    // Whether a packet of this length may pass at its last tick. The laws are those of levels.
    pub fn may_pass(self, length: u8) -> bool
        ensures value { result ≡ passes_now (level_model self) length }
        ensures laws { LevelLaws }
    {
        DEN * u64::from(length) <= self.level
    }

    // A packet of this length passes; where it may not, nothing changes.
    pub fn spend(self, length: u8) -> Level
        ensures { level_model result ≡ spent (level_model self) length }
    {
        if !self.may_pass(length) {
            return self;
        }
        // Each field is written: a struct with ghost fields takes no `..self`.
        Level {
            burst: self.burst,
            rate: self.rate,
            level: self.level - DEN * u64::from(length),
            last: self.last,
        }
    }

    // The first tick from its last on at which a packet of this length may pass; None where it is longer than the
    // burst, or the tick would pass 64 bits.
    pub fn first_pass(self, length: u8) -> Option<u64>
        ensures { result ≡ first_pass (level_model self) length }
    {
        if u16::from(length) > self.burst {
            return None;
        }
        self.last.checked_add(self.wait(length))
    }

    // Its level so many ticks later.
    fn refilled(self, ticks: u64) -> u64
        ensures value { result ≡ refilled (level_model self) ticks }
        ensures low { result ≤ 1000000 * self.burst }
    {
        let all = DEN * u64::from(self.burst);
        if ticks > FILLING {
            return all;
        }
        all.min(self.level + product(self.rate, ticks))
    }

    // Ticks until a packet of this length may pass.
    fn wait(self, length: u8) -> u64
        ensures { result ≡ wait (level_model self) length }
    {
        let shortfall = (DEN * u64::from(length)).saturating_sub(self.level);
        shortfall.div_ceil(u64::from(self.rate))
    }
}

// Whether this is a rate: some of a port, and at most all of it.
fn is_rate(rate: u32) -> bool
    ensures { result ≡ is_rate rate }
{
    1 <= rate && u64::from(rate) <= DEN
}
