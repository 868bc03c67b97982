// Flows from bytes. A reader and a net go together here alone: it is moved on, and the net only looked at.
ghost use Rattle.std.specs.Prelude.{◌≡◌, ◌≤◌, [], take, length, OnErr};
ghost use Rattle.record_bytes.specs.Answers.{cursor, part, verdict};
ghost use Rattle.flows.specs.FlowFormat.{port_number, road_port, road_from, flow_from, flow_record, flow_bytes};
ghost use Rattle.record_bytes.specs.Format.{Format};
ghost use Rattle.flows.specs.Flow.{SoundFlow};
ghost use Rattle.flows.specs.Models.{net_of, flow_of};

use super::flow::Flow;
use super::net::Net;
use super::road::{follows, on_road};
use record_bytes::fault::Fault;
use record_bytes::kind::Kind;
use record_bytes::piece::Piece;
use record_bytes::reader::Reader;

// All of a port, in millionths of it; as 32 bits, of which rates are.
const RATE_WHOLE: u32 = 1_000_000;

// The number of a port of a net; nothing is taken where it is refused.
#[tactic(auto, unfolding(crate::specs::FlowFormat::port_number))]
pub fn read_port_number(reader: &mut Reader, net: &Net) -> Result<u8, Fault>
    ensures value { part (λ p. p) result (cursor reader.new) ≡ port_number (length (net_of net.now).ports) (cursor reader.old) }
    ensures kept { OnErr result (cursor reader.new ≡ cursor reader.old) }
{
    let mut ahead = *reader;
    let Some(port) = ahead.number::<u8>() else {
        return Err(ahead.missing());
    };
    if port >= net.count {
        return Err(Fault::Range { at: reader.at });
    }
    *reader = ahead;
    Ok(port)
}

// The next port of a road.
fn read_road_port(reader: &mut Reader, net: &Net, road: &[u8]) -> Result<u8, Fault>
    ensures { part (λ p. p) result (cursor reader.new) ≡ road_port (net_of net.now) road.now (cursor reader.old) }
{
    let at = reader.at;
    let port = read_port_number(reader, net)?;
    if on_road(port, road) || !follows(net, road, port) {
        return Err(Fault::Road { at });
    }
    Ok(port)
}

fn read_road(reader: &mut Reader, net: &Net, hops: u8) -> Result<[u8; 16], Fault>
    requires { hops ≤ 16 }
    ensures { part (take hops) result (cursor reader.new) ≡ road_from (net_of net.now) hops [] (cursor reader.old) }
{
    let mut road = [0; 16];
    // By their number, since each port is judged by those before it in the same table.
    for i in 0..usize::from(hops) {
        road[i] = read_road_port(reader, net, &road[..i])?;
    }
    Ok(road)
}

#[tactic(auto, unfolding(crate::specs::FlowFormat::flow_from))]
fn read_parts(reader: &mut Reader, net: &Net) -> Result<Flow, Fault>
    ensures { part flow_of result (cursor reader.new) ≡ flow_from (net_of net.now) (cursor reader.old) }
{
    reader.kind(Kind::Flow.into())?;
    let class = reader.number_in(0, 7)?;
    let longest: u8 = reader.number_in(1, 255)?;
    let burst = reader.number_in(u32::from(longest), 65535)?;
    let rate = reader.number_in(1, RATE_WHOLE)?;
    let Some(deadline) = reader.number() else {
        return Err(reader.missing());
    };
    let hops = reader.number_in(1, 16)?;
    let road = read_road(reader, net, hops)?;
    Ok(Flow {
        class,
        longest,
        burst,
        rate,
        deadline,
        road,
        hops,
    })
}

// A flow of a net. Why it closes its reader itself stands at `Reader::close`.
pub fn read_flow(piece: Piece, net: &Net) -> Result<Flow, Fault>
    ensures value { verdict flow_of result ≡ flow_record (net_of net.now) piece.entry.whole piece.entry.bytes.now }
    ensures format { Format (SoundFlow (net_of net.now)) (flow_record (net_of net.now)) flow_bytes }
{
    let mut reader = Reader::new(piece.bytes);
    let flow = read_parts(&mut reader, net)?;
    reader.close(piece.whole, flow)
}
