// What leaves a port in a tick, and what it takes then.
ghost use Rattle.std.specs.Prelude.{◌≡◌, List, Some, None};
ghost use Rattle.queues.specs.Lines.{left_by};
ghost use Rattle.queues.specs.Held.{Holds};
ghost use Rattle.machine.specs.Laws.{MachineLaws};
ghost use Rattle.machine.specs.Phases.{leaves, last_bit, takes};

use super::leaving::Leaving;
use super::sending::Sending;
use lines::packet::Packet;
use queues::cell::Cell;
use queues::queues_of::{Queues, Taken};

// The last bit of what is being sent leaves in its tick, and not before.
pub fn leave(sending: Option<Sending>, tick: u64) -> Leaving
    ensures { result ≡ leaves tick sending }
{
    match sending {
        Some(sending) if sending.until == tick => Leaving::Gone {
            packet: sending.packet,
        },
        Some(sending) => Leaving::Busy { sending },
        None => Leaving::Idle,
    }
}

// A port that is not sending takes the first packet of the lowest class that has one, and sends it whole. One that is
// sending goes on, and nothing changes. The laws are those of the machine. That the memory holds the queues is a premise,
// since it is lent to each call.
pub fn take(
    sending: Option<Sending>,
    queues: &mut Queues,
    memory: &mut [Cell],
    tick: u64,
) -> Option<Sending>
    ensures free { sending ≡ None → (ls : List (List Packet)) → Holds queues.old memory.old ls → (result ≡ takes tick ls) × Holds queues.new memory.new (left_by ls) }
    ensures busy { (s : Sending) → sending ≡ Some s → (result ≡ Some s) × (queues.new ≡ queues.old) × (memory.new ≡ memory.old) }
    ensures laws { MachineLaws }
{
    // not by or_else: of what its closure writes too little is known to prove this
    if sending.is_some() {
        return sending;
    }
    begin(queues, memory, tick)
}

// Takes, where nothing is being sent. The premise is that of `take`.
fn begin(queues: &mut Queues, memory: &mut [Cell], tick: u64) -> Option<Sending>
    ensures { (ls : List (List Packet)) → Holds queues.old memory.old ls → (result ≡ takes tick ls) × Holds queues.new memory.new (left_by ls) }
{
    let Taken::Packet { class: _, packet } = queues.take(memory) else {
        return None;
    };
    Some(Sending {
        packet,
        until: last_bit(tick, packet.length),
    })
}

// The tick at which the last bit of a packet leaves that is taken at a tick. Past 64 bits it stays at the last tick.
fn last_bit(tick: u64, length: u8) -> u64
    ensures { result ≡ last_bit tick length }
{
    tick.saturating_add(u64::from(length))
}
