// One record of the input.
ghost use Rattle.std.specs.Prelude.{◌≡◌, MatchResult, Some, Err, true};
ghost use Rattle.flows.specs.Models.{net_of, flow_of};
ghost use Rattle.records.specs.Records.{record_of};
ghost use Rattle.record_bytes.specs.Answers.{extent, verdict};
ghost use Rattle.script.specs.Models.{standing};
ghost use Rattle.script.specs.SessionLaws.{RefusedOnlyCounts, CutIsRefused, AdmittedStays, PlanSettled};
ghost use Rattle.admission.specs.Dues.{flow_numbered};
ghost use Rattle.script.specs.Session.{length_fits, port_fits, packet_fits, arrival_fits, take_packet, take_record, becomes, counted, takes_number, read_as, step};

use super::line::{Cause, Line, Name};
use super::session::Session;
use flows::flow::Flow;
use flows::net::Net;
use record_bytes::fault::Fault;
use record_bytes::kind::Kind;
use record_bytes::piece::Piece;
use records::read::read_record;
use records::record::{Arrival, Packet, Record};
use records::stage::Stage;
use std::alloc::{AllocError, Global};

// Whether a packet is at least a tick long, and not longer than its flow allows.
fn length_fits(flow: &Flow, length: u8) -> bool
    ensures { result ≡ length_fits (flow_of flow.now) length }
{
    1 <= length && length <= flow.longest
}

// Whether a port is on the road of a flow, and on this switch.
fn port_fits(flow: &Flow, net: &Net, switch: u8, port: u8) -> bool
    ensures { result ≡ port_fits (flow_of flow.now) (net_of net.now) switch port }
{
    flow.passes(port) && net.port(port).switch == switch
}

// Why a packet is refused.
#[derive(Clone, Copy, Debug, PartialEq, Eq)]
enum Misfit {
    // it is of no flow
    NoFlow,
    // it does not fit its flow
    Unfit,
}

impl Session {
    // A packet that fits its flow ends standstill.
    fn take_fitting(&mut self, flow: u16, fits: Result<(), Misfit>) -> Option<Line>
        ensures { (result, standing self.new) ≡ take_packet (standing self.old) flow fits }
    {
        let Err(misfit) = fits else {
            self.stage = Stage::Running;
            return None;
        };
        if misfit == Misfit::NoFlow {
            self.no_flow = self.no_flow.saturating_add(1);
        }
        Some(Line::Refused {
            name: Name::Record {
                number: self.records,
            },
            cause: Cause::Packet { flow },
        })
    }

    // The flow of a packet, if the packet fits it.
    fn flow_of_packet(&self, packet: Packet) -> Result<Flow, Misfit>
        ensures { MatchResult result (λ flow. flow_numbered (standing self.now).plan.flows packet.flow ≡ Some (flow_of flow) × length_fits (flow_of flow) packet.length ≡ true) (λ misfit. packet_fits (flow_numbered (standing self.now).plan.flows packet.flow) packet ≡ Err misfit) }
    {
        let number = u64::from(packet.flow);
        let flow = self.plan.numbered(number).ok_or(Misfit::NoFlow)?;
        if length_fits(&flow, packet.length) {
            Ok(flow)
        } else {
            Err(Misfit::Unfit)
        }
    }

    fn packet_fits(&self, packet: Packet) -> Result<(), Misfit>
        ensures { result ≡ packet_fits (flow_numbered (standing self.now).plan.flows packet.flow) packet }
    {
        self.flow_of_packet(packet)?;
        Ok(())
    }

    fn arrival_fits(&self, arrival: Arrival) -> Result<(), Misfit>
        ensures { result ≡ arrival_fits (flow_numbered (standing self.now).plan.flows arrival.packet.flow) (standing self.now).plan.net self.now.switch arrival }
    {
        let flow = self.flow_of_packet(arrival.packet)?;
        if port_fits(&flow, &self.plan.net, self.switch, arrival.port) {
            Ok(())
        } else {
            Err(Misfit::Unfit)
        }
    }

    // What becomes of a record that was read without a fault. Without memory nothing changes.
    fn take_record(&mut self, heap: Global, record: &Record) -> Result<Option<Line>, AllocError>
        ensures { MatchResult result (λ line. (line, standing self.new) ≡ take_record (standing self.old) (record_of «record».now)) (λ _. standing self.new ≡ standing self.old) }
    {
        match *record {
            Record::Switch(switch) => {
                self.take_switch(switch);
                Ok(None)
            }
            Record::Net(net) => self.take_net(heap, net).map(Some),
            Record::Flow(flow) => self.take_flow(flow).map(Some),
            Record::Packet(packet) => {
                let fits = self.packet_fits(packet);
                Ok(self.take_fitting(packet.flow, fits))
            }
            Record::Arrival(arrival) => {
                let fits = self.arrival_fits(arrival);
                Ok(self.take_fitting(arrival.packet.flow, fits))
            }
            Record::Ticks(ticks) => Ok(self.take_ticks(ticks)),
        }
    }

    fn count(&mut self, bytes: &[u8])
        ensures { standing self.new ≡ counted bytes.now (standing self.old) }
    {
        self.records = self.records.saturating_add(1);
        if takes_number(bytes) {
            self.numbered = self.numbered.saturating_add(1);
        }
    }

    // What becomes of any record. Without memory nothing changes.
    fn judge(
        &mut self,
        heap: Global,
        bytes: &[u8],
        read: &Result<Record, Fault>,
    ) -> Result<Option<Line>, AllocError>
        ensures { MatchResult result (λ line. (line, standing self.new) ≡ becomes (standing self.old) bytes.now (verdict record_of read.now)) (λ _. standing self.new ≡ standing self.old) }
    {
        match read {
            Err(fault) => {
                let name = self.name(bytes);
                Ok(Some(self.refuse(name, Cause::Fault { fault: *fault })))
            }
            Ok(record) => self.take_record(heap, record),
        }
    }

    // What a record is read as where the program stands.
    fn read_here(&self, piece: Piece) -> Result<Record, Fault>
        ensures { verdict record_of result ≡ read_as (standing self.now) (extent piece.entry) }
    {
        let least = self.least_switches();
        read_record(self.program, self.stage, &self.plan.net, least, piece)
    }

    // One record of the input, and what is said of it, if anything is. Without memory nothing changes. The laws are those
    // of what becomes of a record.
    pub fn take(&mut self, heap: Global, piece: Piece) -> Result<Option<Line>, AllocError>
        ensures laws { RefusedOnlyCounts × CutIsRefused × AdmittedStays × PlanSettled }
        ensures value { MatchResult result (λ line. (line, standing self.new) ≡ step (standing self.old) (extent piece.entry)) (λ _. standing self.new ≡ standing self.old) }
    {
        let read = self.read_here(piece);
        let line = self.judge(heap, piece.bytes, &read)?;
        self.count(piece.bytes);
        Ok(line)
    }
}

// Whether a record takes the next flow number.
fn takes_number(bytes: &[u8]) -> bool
    ensures { result ≡ takes_number bytes.now }
{
    Kind::told_by(bytes) == Some(Kind::Flow)
}
