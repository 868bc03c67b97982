// Packets, ticks and switches. The impls are alike as impls of a trait are: each puts its own fields.
ghost use Rattle.records.specs.Formats.{packet_bytes, arrival_bytes, ticks_bytes, switch_bytes};

use super::written::Written;
use record_bytes::kind::Kind;
use records::record::{Arrival, Packet, Switch, Ticks};
use std::alloc::AllocError;

impl Written for Packet {
    ghost bytes = { packet_bytes };

    fn put(&self, out: &mut Vec<u8>) -> Result<(), AllocError> {
        Kind::Packet.put(out)?;
        self.flow.put(out)?;
        self.length.put(out)
    }
}

impl Written for Arrival {
    ghost bytes = { arrival_bytes };

    fn put(&self, out: &mut Vec<u8>) -> Result<(), AllocError> {
        self.packet.put(out)?;
        self.port.put(out)
    }
}

impl Written for Ticks {
    ghost bytes = { ticks_bytes };

    fn put(&self, out: &mut Vec<u8>) -> Result<(), AllocError> {
        Kind::Tick.put(out)?;
        self.count.put(out)
    }
}

impl Written for Switch {
    ghost bytes = { switch_bytes };

    fn put(&self, out: &mut Vec<u8>) -> Result<(), AllocError> {
        Kind::Switch.put(out)?;
        self.number.put(out)
    }
}
