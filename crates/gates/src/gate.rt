// A regulator looks at its first packet only, and lets pass as many as may, one after the other.
ghost use Rattle.std.specs.Prelude.{◌≡◌, ◌<◌, true, false, is_some, List, map, IfSome};
ghost use Rattle.lines.specs.Lines.{Fits, waits};
ghost use Rattle.levels.specs.Models.{level_model};
ghost use Rattle.queues.specs.Held.{Holds, size};
ghost use Rattle.gates.specs.Gates.{marked, may_go, spent_by, queued_by, opened};
ghost use Rattle.gates.specs.Laws.{GateLaws};
ghost use Rattle.gates.specs.Opens.{Opens, StepEnds};

use super::regulator::Regulator;
use levels::level::Level;
use lines::line::Line;
use lines::packet::Packet;
use queues::cell::Cell;
use queues::queues_of::Queues;

impl Regulator<'_> {
    // Opens the gate: from the first on, as many as may pass go into the queues, and their levels are spent. The line that
    // is left. What is written is lent piece by piece: a struct of such references would have to promise that it keeps each.
    pub fn open(
        &self,
        gate: Line,
        waiting: &[Packet],
        levels: &mut [Level],
        queues: &mut Queues,
        memory: &mut [Cell],
    ) -> Line
        ensures fits { Fits waiting.now gate → Fits waiting.now result }
        ensures opens { (ls : List (List Packet)) → Fits waiting.now gate → Holds queues.old memory.old ls → Opens waiting.now result levels.new queues.new memory.new (opened (size memory.old) self.now.at_edge self.now.classes.now self.now.tick (waits waiting.now gate) (map level_model levels.old) ls) }
        ensures laws { GateLaws }
    {
        let mut left = gate;
        while let Some(rest) = self.pass_first(left, waiting, levels, queues, memory) {
            left = rest;
        }
        left
    }

    // The line without its first packet, which passed; None, and nothing changes, where nothing waits or the first may not
    // pass.
    fn pass_first(
        &self,
        gate: Line,
        waiting: &[Packet],
        levels: &mut [Level],
        queues: &mut Queues,
        memory: &mut [Cell],
    ) -> Option<Line>
        ensures shorter { IfSome result (λ next. next.count < gate.count) }
        ensures fits { Fits waiting.now gate → IfSome result (λ next. Fits waiting.now next) }
        ensures step { (ls : List (List Packet)) → Fits waiting.now gate → Holds queues.old memory.old ls → StepEnds (size memory.old) self.now.at_edge self.now.classes.now self.now.tick waiting.now gate result levels.new queues.new memory.new (opened (size memory.old) self.now.at_edge self.now.classes.now self.now.tick (waits waiting.now gate) (map level_model levels.old) ls) }
    {
        let first = gate.first(waiting)?;
        let rest = gate.drop_first(waiting)?;
        self.pass(first, levels, queues, memory)?;
        Some(rest)
    }

    // One packet passes if it may; None, and nothing changes, where it may not.
    fn pass(
        &self,
        packet: Packet,
        levels: &mut [Level],
        queues: &mut Queues,
        memory: &mut [Cell],
    ) -> Option<()>
        ensures answer { (ls : List (List Packet)) → Holds queues.old memory.old ls → is_some result ≡ may_go (size memory.old) self.now.classes.now self.now.tick packet (map level_model levels.old) ls }
        ensures passed { (ls : List (List Packet)) → Holds queues.old memory.old ls → is_some result ≡ true → (map level_model levels.new ≡ spent_by self.now.tick packet (map level_model levels.old)) × Holds queues.new memory.new (queued_by self.now.at_edge self.now.classes.now self.now.tick packet ls) }
        ensures refused { is_some result ≡ false → (levels.new ≡ levels.old) × (queues.new ≡ queues.old) × (memory.new ≡ memory.old) }
    {
        let flow = usize::from(packet.flow);
        let class = *self.classes.get(flow)?;
        let level = levels.get(flow)?.at(self.tick);
        if !level.may_pass(packet.length) || !queues.put(memory, class, self.mark(packet)) {
            return None;
        }
        levels[flow] = level.spend(packet.length);
        Some(())
    }

    // The packet as it goes into the queues: at the edge it is marked with the tick.
    fn mark(&self, packet: Packet) -> Packet
        ensures { result ≡ marked self.now.at_edge self.now.tick packet }
    {
        let edge = if self.at_edge { self.tick } else { packet.edge };
        Packet { edge, ..packet }
    }
}
