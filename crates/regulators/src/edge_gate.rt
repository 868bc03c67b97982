ghost use Rattle.std.specs.Prelude.{◌≡◌, ◌<◌, ◌≤◌, length};

use super::coming::Coming;
use lines::line::Line;
use lines::packet::Packet;

// A regulator at the edge: what waits in its 64 cells, and what comes in this tick.
#[derive(Drop)]
pub struct EdgeGate {
    pub line: Line,
    pub cells: Vec<Packet>,
    pub coming: Vec<Coming>,
    ghost begins: { line.first < 64 },
    ghost few: { line.count ≤ 64 },
    ghost room: { length cells.items ≡ 64 },
}
