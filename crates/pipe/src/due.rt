// By when a packet has passed at the next port.
ghost use Rattle.std.specs.Prelude.{◌≡◌, ◌+◌, ◌^◌, if◌then◌else◌, Some, None, nat_lt};
ghost use Rattle.pipe.specs.Laws.{PipeLaws};

// The tick by which a packet has passed the regulator before the next port, from the tick of its pass and the most
// ticks that any takes to come there; None where that passes 64 bits. A twin of `gone` in port: each stands in its own
// crate, so that the law of that crate is in a contract.
pub fn passed_by(passed: u64, worst: u64) -> Option<u64>
    ensures value { result ≡ (if nat_lt (passed + worst) (2 ^ 64) then Some (passed + worst) else None) }
    ensures law { PipeLaws }
{
    passed.checked_add(worst)
}
