// What waits in the queues of a port.
ghost use Rattle.std.specs.Prelude.{◌≡◌, List};
ghost use Rattle.queues.specs.Lines.{ticks_in};
ghost use Rattle.queues.specs.Held.{Holds};

use super::cell::Cell;
use super::queues_of::Queues;
use lines::packet::Packet;

impl Queues {
    // All ticks that wait, of the eight classes together.
    pub fn waiting(&self) -> u64
        ensures { (cells : List Cell) (lines : List (List Packet)) → Holds self.now cells lines → result ≡ ticks_in lines }
    {
        self.classes
            .iter()
            .fold(0, |ticks: u64, queue| ticks.saturating_add(queue.ticks))
    }
}
