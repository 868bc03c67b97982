// What waits at a port.
ghost use Rattle.std.specs.Prelude.{◌≡◌, ◌+◌, min, List};
ghost use Rattle.std.specs.List.{sum_by};
ghost use Rattle.lines.specs.declared.packet.Packet.{Packet};
ghost use Rattle.queues.specs.Lines.{ticks_in};
ghost use Rattle.queues.specs.Held.{Holds};
ghost use Rattle.bridge.specs.Held.{inside_ticks};

use super::egress_port::EgressPort;
use lines::packet::Packet;
use queues::cell::Cell;

impl EgressPort {
    // The ticks that wait in its queues and behind the regulators inside: what it fills of its switch's memory. At most the
    // largest number.
    pub fn waiting(&self) -> u64
        ensures { (cells : List Cell) (lines : List (List Packet)) → Holds self.now.queues cells lines → result ≡ min (ticks_in lines + sum_by inside_ticks self.now.inside.items) 18446744073709551615 }
    {
        self.inside
            .iter()
            .fold(self.queues.waiting(), |ticks: u64, inner| {
                ticks.saturating_add(inner.gate.waiting())
            })
    }
}
