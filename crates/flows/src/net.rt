ghost use Rattle.std.specs.Prelude.{ℕ, ◌<◌, ◌≤◌, length, slice_index, slice_index_or};
ghost use Rattle.flows.specs.Net.{SoundPort, no_port};

use super::port::Port;

// A net of count ports and of switches with their memory in ticks; the rest of each table is unused.
// The tables stand in the net itself: reading a net cannot fail for want of memory.
#[derive(Clone, Copy)]
pub struct Net {
    pub ports: [Port; 64],
    pub count: u8,
    pub memory: [u32; 255],
    pub switches: u8,
    ghost ports_few: { count ≤ 64 },
    ghost ports_listed: { count ≤ length ports },
    ghost memory_listed: { switches ≤ length memory },
    ghost each_port: { (k : ℕ) → k < count → SoundPort switches (slice_index_or ports k no_port) },
    ghost each_memory: { (k : ℕ) → k < switches → slice_index memory k ≤ 1048576 },
}
