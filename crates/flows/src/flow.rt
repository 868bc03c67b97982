ghost use Rattle.std.specs.Prelude.{ℕ, ◌<◌, ◌≤◌, length, slice_index};

// A flow: lengths and bursts in ticks of sending, its rate in millionths of a port, its deadline in ticks, and the
// ports of its road, of which the first hops are in use. The road stands in the flow itself, which is handed on by value.
#[derive(Clone, Copy)]
pub struct Flow {
    pub class: u8,
    pub longest: u8,
    pub burst: u16,
    pub rate: u32,
    pub deadline: u32,
    pub road: [u8; 16],
    pub hops: u8,
    ghost class_low: { class ≤ 7 },
    ghost longest_some: { 1 ≤ longest },
    ghost burst_holds: { longest ≤ burst },
    ghost rate_some: { 1 ≤ rate },
    ghost rate_whole: { rate ≤ 1000000 },
    ghost hops_some: { 1 ≤ hops },
    ghost hops_few: { hops ≤ 16 },
    ghost ports_listed: { hops ≤ length road },
    ghost ports_known: { (k : ℕ) → k < hops → slice_index road k < 64 },
    ghost burst_short: { burst ≤ 65535 },
    ghost longest_byte: { longest ≤ 255 },
}
