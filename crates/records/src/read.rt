// Records from bytes. Why each reader closes its record itself stands at `Reader::close`.
ghost use Rattle.std.specs.Prelude.{◌≡◌, length};
ghost use Rattle.record_bytes.specs.Answers.{cursor, part, verdict};
ghost use Rattle.record_bytes.specs.Format.{Format};
ghost use Rattle.record_bytes.specs.Kinds.{byte_of};
ghost use Rattle.flows.specs.Models.{net_of};
ghost use Rattle.records.specs.Formats.{packet_from, packet_record, packet_bytes, SoundPacket, arrival_record, arrival_bytes, SoundArrival, number_record, ticks_record, ticks_bytes, SoundTicks, switch_record, switch_bytes, SoundSwitch};
ghost use Rattle.records.specs.Records.{record_here, record_of};

use super::kinds::kind_of;
use super::record::{Arrival, Packet, Record, Switch, Ticks};
use super::stage::{Program, Stage};
use flows::net::Net;
use flows::read_flow::{read_flow, read_port_number};
use flows::read_net::read_net;
use record_bytes::fault::Fault;
use record_bytes::kind::Kind;
use record_bytes::number::Number;
use record_bytes::piece::Piece;
use record_bytes::reader::Reader;

#[tactic(auto, unfolding(crate::specs::Formats::packet_from))]
fn read_packet_parts(reader: &mut Reader) -> Result<Packet, Fault>
    ensures { part (λ p. p) result (cursor reader.new) ≡ packet_from (cursor reader.old) }
{
    reader.kind(Kind::Packet.into())?;
    let Some(flow) = reader.number() else {
        return Err(reader.missing());
    };
    let Some(length) = reader.number() else {
        return Err(reader.missing());
    };
    Ok(Packet { flow, length })
}

#[tactic(auto, using(crate::proofs::FormatLaws::packet_format))]
fn read_packet(piece: Piece) -> Result<Packet, Fault>
    ensures value { verdict (λ p. p) result ≡ packet_record piece.entry.whole piece.entry.bytes.now }
    ensures format { Format SoundPacket packet_record packet_bytes }
{
    let mut reader = Reader::new(piece.bytes);
    let packet = read_packet_parts(&mut reader)?;
    reader.close(piece.whole, packet)
}

#[tactic(auto, unfolding(crate::specs::Formats::arrival_from))]
fn read_arrival(piece: Piece, net: &Net) -> Result<Arrival, Fault>
    ensures value { verdict (λ a. a) result ≡ arrival_record (length (net_of net.now).ports) piece.entry.whole piece.entry.bytes.now }
    ensures format { Format (SoundArrival (length (net_of net.now).ports)) (arrival_record (length (net_of net.now).ports)) arrival_bytes }
{
    let mut reader = Reader::new(piece.bytes);
    let packet = read_packet_parts(&mut reader)?;
    let port = read_port_number(&mut reader, net)?;
    reader.close(piece.whole, Arrival { packet, port })
}

// The number that a record of a kind and one number holds. Ticks and switches are read by it in a function each, since
// each of the two says the law of its own format.
#[tactic(auto, unfolding(crate::specs::Formats::number_of_kind))]
fn read_number<T: Number>(piece: Piece, kind: Kind) -> Result<T, Fault>
    ensures { verdict T.value result ≡ number_record (byte_of kind) T.SIZE piece.entry.whole piece.entry.bytes.now }
{
    let mut reader = Reader::new(piece.bytes);
    reader.kind(kind.into())?;
    let Some(number) = reader.number() else {
        return Err(reader.missing());
    };
    reader.close(piece.whole, number)
}

#[tactic(auto, using(crate::proofs::FormatLaws::ticks_format))]
fn read_ticks(piece: Piece) -> Result<Ticks, Fault>
    ensures value { verdict (λ t. t) result ≡ ticks_record piece.entry.whole piece.entry.bytes.now }
    ensures format { Format SoundTicks ticks_record ticks_bytes }
{
    let count = read_number(piece, Kind::Tick)?;
    Ok(Ticks { count })
}

#[tactic(auto, using(crate::proofs::FormatLaws::switch_format))]
fn read_switch(piece: Piece) -> Result<Switch, Fault>
    ensures value { verdict (λ s. s) result ≡ switch_record piece.entry.whole piece.entry.bytes.now }
    ensures format { Format SoundSwitch switch_record switch_bytes }
{
    let number = read_number(piece, Kind::Switch)?;
    Ok(Switch { number })
}

// A record of a kind that is known where the program stands; a net must have at least so many switches.
pub fn read_record(
    program: Program,
    stage: Stage,
    net: &Net,
    least: u16,
    piece: Piece,
) -> Result<Record, Fault>
    ensures { verdict record_of result ≡ record_here program stage (net_of net.now) least piece.entry.whole piece.entry.bytes.now }
{
    let kind = kind_of(program, stage, piece.bytes).ok_or(Fault::Length { at: 0 })?;
    match kind {
        Kind::Flow => Ok(Record::Flow(read_flow(piece, net)?)),
        Kind::Net => Ok(Record::Net(read_net(piece, least)?)),
        Kind::Packet if program == Program::Ports => Ok(Record::Arrival(read_arrival(piece, net)?)),
        Kind::Packet => Ok(Record::Packet(read_packet(piece)?)),
        Kind::Tick => Ok(Record::Ticks(read_ticks(piece)?)),
        Kind::Switch => Ok(Record::Switch(read_switch(piece)?)),
    }
}
