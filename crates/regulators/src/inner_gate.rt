ghost use Rattle.std.specs.Prelude.{◌≡◌, ◌+◌, ◌<◌, ◌≤◌, length};
ghost use Rattle.lines.specs.Lines.{waits};
ghost use Rattle.lines.specs.Ticks.{ticks_of};

use super::coming::Coming;
use lines::counted::Counted;
use lines::packet::Packet;

// A regulator inside the net: what waits in its cells, the ticks that are set aside for it, and what comes in this tick.
// No more ticks wait than are set aside, so with a cell for each and one more there is always one. How many ticks that is
// stands beside the cells, as `aside` is what a packet is judged by.
#[derive(Drop)]
pub struct InnerGate {
    pub counted: Counted,
    pub cells: Vec<Packet>,
    pub aside: u32,
    pub coming: Vec<Coming>,
    ghost begins: { counted.line.first < length cells.items },
    ghost few: { counted.line.count ≤ length cells.items },
    ghost room: { length cells.items ≡ aside + 1 },
    ghost counts: { counted.ticks ≡ ticks_of (waits cells.items counted.line) },
    ghost kept: { counted.ticks ≤ aside },
}
