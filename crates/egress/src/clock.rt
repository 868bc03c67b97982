// The clock of a port.
ghost use Rattle.std.specs.Prelude.{◌≡◌};
ghost use Rattle.egress.specs.Clock.{next_of};
ghost use Rattle.egress.specs.Laws.{EgressLaws};

// The next tick; None where a longest packet that is taken in it would leave past 64 bits. The laws of a port are in
// its contract.
pub fn next_tick(tick: u64) -> Option<u64>
    ensures value { result ≡ next_of tick }
    ensures laws { EgressLaws }
{
    let next = tick.checked_add(1)?;
    next.checked_add(u64::from(u8::MAX))?;
    Some(next)
}
