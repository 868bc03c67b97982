// A regulator inside the net has so many ticks set aside.
ghost use Rattle.std.specs.Prelude.{◌≡◌, ℕ, ◌+◌, ◌≤◌, ◌++◌, [], ◌∷◌, List, map, length, vec_len, vec_capacity, IsOk, OnOk, OnErr, IfOk};
ghost use Rattle.lines.specs.Lines.{Fits, waits};
ghost use Rattle.lines.specs.Ticks.{Counts, ticks_of};
ghost use Rattle.levels.specs.Models.{level_model};
ghost use Rattle.queues.specs.Held.{Holds, size};
ghost use Rattle.regulators.specs.Judged.{inner_tick, judged, inner_accepts};
ghost use Rattle.regulators.specs.Laws.{InnerLaws};
ghost use Rattle.regulators.specs.Ticked.{Ticked, behind, judged_behind, Sound, InnerEnds, AcceptMeans, LeftOf};

use super::coming::Coming;
use super::inner_gate::InnerGate;
use gates::regulator::Regulator;
use levels::level::Level;
use lines::counted::Counted;
use lines::packet::Packet;
use queues::cell::Cell;
use queues::queues_of::Queues;
use std::alloc::{AllocError, Global};

impl InnerGate {
    // So many ticks are set aside; nothing waits, and nothing comes. As every packet is at least a tick long, one cell for
    // each tick is enough; there is one more, so that there are some.
    pub fn new(heap: Global, aside: u32) -> Result<Self, AllocError>
        ensures { IfOk result (λ gate. (waits gate.cells.items gate.counted.line ≡ []) × (gate.coming.items ≡ []) × (gate.aside ≡ aside)) }
    {
        let cells = vec![in heap; Packet::default(); aside as usize + 1]?;
        Ok(InnerGate {
            counted: Counted::empty(),
            cells,
            aside,
            coming: Vec::new(heap),
        })
    }

    // One more that comes in this tick, as at the edge. Where memory ends, it has not come.
    pub fn come(&mut self, coming: Coming) -> Result<(), AllocError>
        ensures waits { waits self.new.cells.items self.new.counted.line ≡ waits self.old.cells.items self.old.counted.line }
        ensures aside { self.new.aside ≡ self.old.aside }
        ensures comes { OnOk result (self.new.coming.items ≡ self.old.coming.items ++ coming ∷ []) }
        ensures kept { OnErr result (self.new.coming.items ≡ self.old.coming.items) }
    {
        self.coming.push(coming)?;
        Ok(())
    }

    // How many ticks wait.
    pub fn waiting(&self) -> u64
        ensures { result ≡ ticks_of (waits self.now.cells.items self.now.counted.line) }
    {
        self.counted.ticks
    }

    // A tick: who comes is put behind the others, or is refused where with it more ticks would wait than are set aside; then
    // what may pass passes. The numbers of those refused go behind those that are there. Where memory ends, nothing changes.
    // What is written is lent piece by piece, as to `Regulator::open`.
    pub fn tick(
        &mut self,
        classes: &[u8],
        tick: u64,
        levels: &mut [Level],
        queues: &mut Queues,
        memory: &mut [Cell],
        refused: &mut Vec<u64>,
    ) -> Result<(), AllocError>
        ensures ticks { (ls : List (List Packet)) → Holds queues.old memory.old ls → OnOk result (Ticked self.new.cells.items self.new.counted.line levels.new queues.new memory.new refused.new.items (behind refused.old.items (inner_tick self.old.aside (size memory.old) classes.now tick (waits self.old.cells.items self.old.counted.line) (map level_model levels.old) ls self.old.coming.items))) }
        ensures room { (n : ℕ) → vec_len refused.old + length self.old.coming.items + n ≤ vec_capacity refused.old → IsOk result × (vec_len refused.new + n ≤ vec_capacity refused.new) }
        ensures come { OnOk result (self.new.coming.items ≡ []) }
        ensures kept { OnErr result ((self.new ≡ self.old) × (levels.new ≡ levels.old) × (queues.new ≡ queues.old) × (memory.new ≡ memory.old) × (refused.new.items ≡ refused.old.items)) }
        ensures laws { InnerLaws }
        ensures aside { self.new.aside ≡ self.old.aside }
    {
        // room for all numbers first, so that nothing fails half done
        refused.reserve(self.coming.len())?;
        judge(
            self.aside,
            &mut self.counted,
            self.cells.as_mut_slice(),
            self.coming.as_slice(),
            refused,
        )?;
        self.coming.clear();
        let regulator = Regulator {
            classes,
            at_edge: false,
            tick,
        };
        let left = regulator.open(
            self.counted.line,
            self.cells.as_slice(),
            levels,
            queues,
            memory,
        );
        self.counted = left_of(self.counted, self.cells.as_slice(), left.count);
        Ok(())
    }
}

// Who comes is put behind the others, or is refused where with it more ticks would wait than are set aside. Unlike at the edge
// nothing passes meanwhile, so levels and queues are not lent.
fn judge(
    aside: u32,
    counted: &mut Counted,
    cells: &mut [Packet],
    coming: &[Coming],
    refused: &mut Vec<u64>,
) -> Result<(), AllocError>
    ensures done { (n : ℕ) → vec_len refused.old + length coming.now + n ≤ vec_capacity refused.old → IsOk result × (vec_len refused.new + n ≤ vec_capacity refused.new) }
    ensures sound { Sound aside cells.old counted.old → Sound aside cells.new counted.new }
    ensures judges { Sound aside cells.old counted.old → OnOk result (InnerEnds aside cells.new counted.new refused.new.items [] (judged_behind refused.old.items (judged (inner_accepts aside) (waits cells.old counted.old.line) coming.now))) }
{
    for one in coming {
        match accept(aside, *counted, cells, one.packet) {
            Some(longer) => *counted = longer,
            None => refused.push(one.number)?,
        }
    }
    Ok(())
}

// One more behind the others; None, and the cells stay as they are, where with it more ticks would wait than are set aside.
fn accept(aside: u32, counted: Counted, cells: &mut [Packet], packet: Packet) -> Option<Counted>
    ensures { Sound aside cells.old counted → AcceptMeans aside cells.old cells.new counted packet result }
{
    let ticks = counted.ticks.checked_add(u64::from(packet.length))?;
    if ticks > u64::from(aside) {
        return None;
    }
    counted.push(cells, packet)
}

// The line without its first packets, so that no more than so many are left; one by one, since the ticks of each are counted
// off.
fn left_of(counted: Counted, cells: &[Packet], count: usize) -> Counted
    ensures { Fits cells.now counted.line → Counts cells.now counted → LeftOf cells.now counted count result }
{
    let mut left = counted;
    while left.line.count > count {
        let Some(rest) = left.drop_first(cells) else {
            return left;
        };
        left = rest;
    }
    left
}
