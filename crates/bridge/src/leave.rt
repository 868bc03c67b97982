// What leaves a port in a tick.
ghost use Rattle.std.specs.Prelude.{◌≡◌};
ghost use Rattle.machine.specs.Phases.{leaves, goes_on};
ghost use Rattle.bridge.specs.Ports.{gone};
ghost use Rattle.bridge.specs.Laws.{LeavesOn};

use super::egress_port::EgressPort;
use lines::packet::Packet;
use machine::leaving::Leaving;
use machine::phases;

impl EgressPort {
    // The last bit of what is being sent leaves in its tick, and not before: then this is the packet, and nothing is
    // being sent any more. Nothing else changes.
    pub fn leave(&mut self, tick: u64) -> Option<Packet>
        ensures left { result ≡ gone (leaves tick self.old.sending) }
        ensures goes_on { self.new ≡ record self.old { sending = goes_on (leaves tick self.old.sending) } }
        ensures laws { LeavesOn }
    {
        let Leaving::Gone { packet } = phases::leave(self.sending, tick) else {
            return None;
        };
        self.sending = None;
        Some(packet)
    }
}
