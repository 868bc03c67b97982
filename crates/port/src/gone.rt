// When the last bit of a packet leaves.
ghost use Rattle.std.specs.Prelude.{◌≡◌, ◌+◌, ◌^◌, if◌then◌else◌, Some, None, nat_lt};
ghost use Rattle.port.specs.Laws.{PortLaws};

// The tick at which the last bit of a packet leaves that was taken at a tick; None where that passes 64 bits. A
// twin of `passed_by` in pipe: each stands in its own crate, so that the law of that crate is in a contract.
pub fn gone(taken: u64, length: u8) -> Option<u64>
    ensures value { result ≡ (if nat_lt (taken + length) (2 ^ 64) then Some (taken + length) else None) }
    ensures law { PortLaws }
{
    taken.checked_add(u64::from(length))
}
