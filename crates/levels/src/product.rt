// Products in 64 bits of 32-bit numbers.
ghost use Rattle.std.specs.Prelude.{◌≡◌, ◌*◌, ◌≤◌};

fn times(a: u32, b: u32) -> u64
    ensures { result ≡ a * b }
{
    u64::from(a) * u64::from(b)
}

// A rate times ticks, which are split at 32 bits: products of 32-bit numbers in 64 bits are a rule of the project.
pub(crate) fn product(rate: u32, ticks: u64) -> u64
    requires { (rate ≤ 1000000) × (ticks ≤ 65535000000) }
    ensures { result ≡ rate * ticks }
{
    let high = (ticks / 0x1_0000_0000) as u32;
    let low = (ticks % 0x1_0000_0000) as u32;
    times(rate, high) * 0x1_0000_0000 + times(rate, low)
}
