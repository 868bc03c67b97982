// Nets from bytes.
ghost use Rattle.std.specs.Prelude.{◌≡◌, length};
ghost use Rattle.record_bytes.specs.Reading.{Cursor, Outcome, several};
ghost use Rattle.record_bytes.specs.Numbers.{ranged};
ghost use Rattle.record_bytes.specs.Answers.{cursor, part, verdict};
ghost use Rattle.record_bytes.specs.Format.{Format};
ghost use Rattle.flows.specs.NetFormat.{port_from, needed, net_from, net_record, net_bytes, SoundAtLeast};
ghost use Rattle.flows.specs.Models.{net_of};

use super::net::Net;
use super::port::Port;
use record_bytes::fault::Fault;
use record_bytes::kind::Kind;
use record_bytes::piece::Piece;
use record_bytes::reader::Reader;

// A part of a net that stands there several times.
trait Part: Copy {
    ghost from: { Cursor → Outcome Self };

    fn read(reader: &mut Reader) -> Result<Self, Fault>
        ensures { part (λ p. p) result (cursor reader.new) ≡ from (cursor reader.old) };
}

impl Part for Port {
    ghost from = { port_from };

    #[tactic(auto, unfolding(crate::specs::NetFormat::port_from))]
    fn read(reader: &mut Reader) -> Result<Port, Fault> {
        let Some(switch) = reader.number() else {
            return Err(reader.missing());
        };
        let Some(ends) = reader.number() else {
            return Err(reader.missing());
        };
        let wire = reader.number_in(0, 1023)?;
        Ok(Port { switch, ends, wire })
    }
}

// The memory of a switch, in ticks.
impl Part for u32 {
    ghost from = { ranged 4 0 1048576 };

    fn read(reader: &mut Reader) -> Result<u32, Fault> {
        reader.number_in(0, 1_048_576)
    }
}

// Parts one after the other, as many as there are places for them.
fn read_all<T: Part>(reader: &mut Reader, places: &mut [T]) -> Result<(), Fault>
    ensures { part (λ _. places.new) result (cursor reader.new) ≡ several (length places.old) T.from (cursor reader.old) }
{
    for place in places {
        *place = T::read(reader)?;
    }
    Ok(())
}

// How many switches the ports name, counted from 0; at least as many as are asked for anyway.
fn switches_needed(least: u16, ports: &[Port]) -> u16
    ensures { result ≡ needed least ports.now }
{
    ports
        .iter()
        .map(|port| u16::from(port.switch.max(port.ends)) + 1)
        .fold(least, u16::max)
}

#[tactic(auto, unfolding(crate::specs::NetFormat::net_from))]
fn read_parts(reader: &mut Reader, least: u16) -> Result<Net, Fault>
    ensures { part net_of result (cursor reader.new) ≡ net_from least (cursor reader.old) }
{
    reader.kind(Kind::Net.into())?;
    let count: u8 = reader.number_in(0, 64)?;
    let mut ports = [Port::default(); 64];
    read_all(reader, &mut ports[..usize::from(count)])?;
    let needed = switches_needed(least, &ports[..usize::from(count)]);
    let switches: u8 = reader.number_in(u32::from(needed), 255)?;
    let mut memory = [0; 255];
    read_all(reader, &mut memory[..usize::from(switches)])?;
    Ok(Net {
        ports,
        count,
        memory,
        switches,
    })
}

// A net of at least so many switches. Why it closes its reader itself stands at `Reader::close`.
#[tactic(auto, using(crate::proofs::NetBytes::net_format))]
pub fn read_net(piece: Piece, least: u16) -> Result<Net, Fault>
    ensures value { verdict net_of result ≡ net_record least piece.entry.whole piece.entry.bytes.now }
    ensures format { Format (SoundAtLeast least) (net_record least) net_bytes }
{
    let mut reader = Reader::new(piece.bytes);
    let net = read_parts(&mut reader, least)?;
    reader.close(piece.whole, net)
}
