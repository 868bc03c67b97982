// A regulator at the edge has room for 64 packets besides those that may pass in the tick.
ghost use Rattle.std.specs.Prelude.{◌≡◌, ℕ, ◌+◌, ◌≤◌, true, ◌++◌, [], ◌∷◌, List, map, length, vec_len, vec_capacity, IsOk, OnOk, OnErr, IfOk};
ghost use Rattle.lines.specs.Lines.{Fits, waits};
ghost use Rattle.levels.specs.Models.{level_model};
ghost use Rattle.queues.specs.Held.{Holds, size};
ghost use Rattle.regulators.specs.Judged.{edge_tick};
ghost use Rattle.regulators.specs.Laws.{EdgeLaws};
ghost use Rattle.regulators.specs.Ticked.{Ticked, EdgeEnds, behind};

use super::coming::Coming;
use super::edge_gate::EdgeGate;
use gates::regulator::Regulator;
use levels::level::Level;
use lines::line::Line;
use lines::packet::Packet;
use queues::cell::Cell;
use queues::queues_of::Queues;
use std::alloc::{AllocError, Global};

const ROOM: usize = 64;

impl EdgeGate {
    // Nothing waits, and nothing comes.
    pub fn new(heap: Global) -> Result<Self, AllocError>
        ensures { IfOk result (λ gate. (waits gate.cells.items gate.line ≡ []) × (gate.coming.items ≡ [])) }
    {
        let cells = vec![in heap; Packet::default(); ROOM]?;
        Ok(EdgeGate {
            line: Line::empty(),
            cells,
            coming: Vec::new(heap),
        })
    }

    // One more that comes in this tick. Where memory ends, it has not come.
    pub fn come(&mut self, coming: Coming) -> Result<(), AllocError>
        ensures waits { waits self.new.cells.items self.new.line ≡ waits self.old.cells.items self.old.line }
        ensures comes { OnOk result (self.new.coming.items ≡ self.old.coming.items ++ coming ∷ []) }
        ensures kept { OnErr result (self.new.coming.items ≡ self.old.coming.items) }
    {
        self.coming.push(coming)?;
        Ok(())
    }

    // How many packets wait.
    pub fn waiting(&self) -> usize
        ensures { result ≡ length (waits self.now.cells.items self.now.line) }
    {
        self.line.count
    }

    // A tick: who comes is put behind those who still wait after what may pass has passed, or is refused where these are 64;
    // then what may pass passes. The numbers of those refused go behind those that are there. Where memory ends, nothing
    // changes.
    pub fn tick(
        &mut self,
        classes: &[u8],
        tick: u64,
        levels: &mut [Level],
        queues: &mut Queues,
        memory: &mut [Cell],
        refused: &mut Vec<u64>,
    ) -> Result<(), AllocError>
        ensures ticks { (ls : List (List Packet)) → Holds queues.old memory.old ls → OnOk result (Ticked self.new.cells.items self.new.line levels.new queues.new memory.new refused.new.items (behind refused.old.items (edge_tick (size memory.old) classes.now tick (waits self.old.cells.items self.old.line) (map level_model levels.old) ls self.old.coming.items))) }
        ensures room { (n : ℕ) → vec_len refused.old + length self.old.coming.items + n ≤ vec_capacity refused.old → IsOk result × (vec_len refused.new + n ≤ vec_capacity refused.new) }
        ensures come { OnOk result (self.new.coming.items ≡ []) }
        ensures kept { OnErr result ((self.new ≡ self.old) × (levels.new ≡ levels.old) × (queues.new ≡ queues.old) × (memory.new ≡ memory.old) × (refused.new.items ≡ refused.old.items)) }
        ensures laws { EdgeLaws }
    {
        // room for all numbers first, so that nothing fails half done
        refused.reserve(self.coming.len())?;
        let regulator = Regulator {
            classes,
            at_edge: true,
            tick,
        };
        let line = judge(
            &regulator,
            self.line,
            self.cells.as_mut_slice(),
            self.coming.as_slice(),
            levels,
            queues,
            memory,
            refused,
        )?;
        self.line = regulator.open(line, self.cells.as_slice(), levels, queues, memory);
        self.coming.clear();
        Ok(())
    }
}

// Who comes is put behind those who still wait after what may pass has passed, or is refused where these are 64. What is
// written is lent piece by piece, as to `Regulator::open`.
fn judge(
    regulator: &Regulator,
    gate: Line,
    cells: &mut [Packet],
    coming: &[Coming],
    levels: &mut [Level],
    queues: &mut Queues,
    memory: &mut [Cell],
    refused: &mut Vec<u64>,
) -> Result<Line, AllocError>
    ensures done { (n : ℕ) → vec_len refused.old + length coming.now + n ≤ vec_capacity refused.old → IsOk result × (vec_len refused.new + n ≤ vec_capacity refused.new) }
    ensures fits { Fits cells.old gate → IfOk result (Fits cells.new) }
    ensures judges { (ls : List (List Packet)) → regulator.now.at_edge ≡ true → Fits cells.old gate → length cells.old ≡ 64 → Holds queues.old memory.old ls → IfOk result (λ line. EdgeEnds (size memory.old) regulator.now.classes.now regulator.now.tick cells.new line levels.new queues.new memory.new refused.new.items [] (behind refused.old.items (edge_tick (size memory.old) regulator.now.classes.now regulator.now.tick (waits cells.old gate) (map level_model levels.old) ls coming.now))) }
{
    let mut line = gate;
    for one in coming {
        let left = regulator.open(line, cells, levels, queues, memory);
        line = match left.push(cells, one.packet) {
            Some(longer) => longer,
            None => {
                refused.push(one.number)?;
                left
            }
        };
    }
    Ok(line)
}
