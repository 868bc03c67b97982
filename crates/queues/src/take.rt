// Taking from the queues of a port.
ghost use Rattle.std.specs.Prelude.{◌≡◌, ◌<◌, List, MatchOption};
ghost use Rattle.queues.specs.Lines.{taken_from, left_by};
ghost use Rattle.queues.specs.Held.{IsLowest, Lowest, Holds};
ghost use Rattle.queues.specs.Laws.{QueueLaws};

use super::cell::Cell;
use super::queues_of::{Queue, Queues, Taken};
use lines::packet::Packet;

impl Queues {
    // The first packet of the lowest class that has one; its cell becomes free. Nothing, and nothing changes, where all
    // queues are empty.
    pub fn take(&mut self, cells: &mut [Cell]) -> Taken
        ensures first { (lines : List (List Packet)) → Holds self.old cells.old lines → (result ≡ taken_from 0 lines) × Holds self.new cells.new (left_by lines) }
        ensures nothing { result ≡ Taken.Nothing → (self.new ≡ self.old) × (cells.new ≡ cells.old) }
        ensures laws { QueueLaws }
    {
        let Some(class) = self.lowest() else {
            return Taken::Nothing;
        };
        match self.take_of(cells, class) {
            Some(packet) => Taken::Packet {
                // below 8, so `as` loses nothing; try_from would have a case that never comes
                class: class as u8,
                packet,
            },
            None => Taken::Nothing,
        }
    }

    // The lowest class that has a packet. The laws are those of queues.
    fn lowest(&self) -> Option<usize>
        ensures class { Lowest self.now result }
        ensures laws { QueueLaws }
    {
        let mut lowest = None;
        // a rule of the project, so no `position`: a loop over the classes, left by its label at the first with a packet
        'found: for (class, queue) in self.classes.iter().enumerate() {
            if queue.count > 0 {
                lowest = Some(class);
                break 'found;
            }
        }
        lowest
    }

    // The first packet of a class that has one. None only where there is none, or cells and counts do not belong together.
    fn take_of(&mut self, cells: &mut [Cell], class: usize) -> Option<Packet>
        ensures first { IsLowest self.old class → (lines : List (List Packet)) → Holds self.old cells.old lines → MatchOption result ⊥ (λ packet. (Taken.Packet class packet ≡ taken_from 0 lines) × Holds self.new cells.new (left_by lines)) }
        ensures nothing { result ≡ None → (self.new ≡ self.old) × (cells.new ≡ cells.old) }
    {
        // tests and indices: with `get` in place of either it was not proved that `place` fits its type
        if class >= self.classes.len() {
            return None;
        }
        let queue = self.classes[class];
        let place = queue.first as usize;
        if place >= cells.len() {
            return None;
        }
        let cell = cells[place];
        let count = queue.count.checked_sub(1)?;
        let ticks = queue.ticks.checked_sub(u64::from(cell.packet.length))?;
        let free_count = self.free_count.checked_add(1)?;
        cells[place].next = self.free;
        self.classes[class] = Queue {
            first: cell.next,
            count,
            ticks,
            ..queue
        };
        self.free = queue.first;
        self.free_count = free_count;
        Some(cell.packet)
    }
}
