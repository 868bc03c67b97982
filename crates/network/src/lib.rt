// The whole net: its ticks, and the promise along the roads.
#![tactic(auto)]

ghost use Rattle.std.specs.Prelude.{◌≡◌};
ghost use Rattle.network.specs.Clock.{arrival_of};
ghost use Rattle.network.specs.Laws.{NetworkLaws};

// The tick at which a packet that leaves at a tick is at the end of its wire; None past 64 bits. The laws of a net are
// in its contract.
pub fn arrival(tick: u64, wire: u16) -> Option<u64>
    ensures value { result ≡ arrival_of tick wire }
    ensures laws { NetworkLaws }
{
    tick.checked_add(u64::from(wire))
}
