// Putting into the queues of a port.
ghost use Rattle.std.specs.Prelude.{◌≡◌, true, false, ◌&&◌, is_some, List, nat_le, nat_lt, slice_set};
ghost use Rattle.queues.specs.Lines.{put_in, packets_in};
ghost use Rattle.queues.specs.Held.{Holds, packet_at, size};

use super::cell::Cell;
use super::queues_of::{Queue, Queues};
use lines::packet::Packet;

impl Queues {
    // A packet more at the end of the queue of its class. False, and nothing changes, where this is no class or no cell is
    // free. A bool, as of a set's insert: an error would say no more, and the packet was copied, so none is handed back.
    pub fn put(&mut self, cells: &mut [Cell], class: u8, packet: Packet) -> bool
        ensures answer { (lines : List (List Packet)) → Holds self.old cells.old lines → result ≡ (nat_le class 7 && nat_lt (packets_in lines) (size cells.old)) }
        ensures entered { (lines : List (List Packet)) → Holds self.old cells.old lines → result ≡ true → Holds self.new cells.new (put_in lines class packet) }
        ensures refused { result ≡ false → (self.new ≡ self.old) × (cells.new ≡ cells.old) }
    {
        self.enter(cells, usize::from(class), packet).is_some()
    }

    // The same, each step as an Option.
    fn enter(&mut self, cells: &mut [Cell], class: usize, packet: Packet) -> Option<()>
        ensures answer { (lines : List (List Packet)) → Holds self.old cells.old lines → is_some result ≡ (nat_le class 7 && nat_lt (packets_in lines) (size cells.old)) }
        ensures entered { (lines : List (List Packet)) → Holds self.old cells.old lines → is_some result ≡ true → Holds self.new cells.new (put_in lines class packet) }
        ensures refused { is_some result ≡ false → (self.new ≡ self.old) × (cells.new ≡ cells.old) }
    {
        let queue = *self.classes.get(class)?;
        let free_count = self.free_count.checked_sub(1)?;
        let free = self.free;
        let place = free as usize;
        // where cells and counts belong together, none of the next three returns
        let next = cells.get(place)?.next;
        let count = queue.count.checked_add(1)?;
        let ticks = queue.ticks.checked_add(u64::from(packet.length))?;
        cells[place].packet = packet;
        let first = if queue.count == 0 {
            free
        } else {
            link(cells, queue.last, free);
            queue.first
        };
        self.classes[class] = Queue {
            first,
            last: free,
            count,
            ticks,
        };
        self.free = next;
        self.free_count = free_count;
        Some(())
    }
}

// The cell at a place gets a next one. Past the last cell nothing changes. A test and an index, since nothing is known of
// what `get_mut` of a slice lends.
fn link(cells: &mut [Cell], place: u32, next: u32)
    ensures { cells.new ≡ slice_set cells.old place (record { packet = packet_at cells.old place; next = next }) }
{
    let place = place as usize;
    if place < cells.len() {
        cells[place].next = next;
    }
}
