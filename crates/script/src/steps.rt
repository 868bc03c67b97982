// What becomes of a record that was read.
ghost use Rattle.std.specs.Prelude.{◌≡◌, Some, None, IfOk, MatchResult};
ghost use Rattle.flows.specs.Models.{net_of, flow_of};
ghost use Rattle.script.specs.Models.{standing};
ghost use Rattle.script.specs.Session.{beginning, least_switches, name_of, refuse, take_switch, take_net, take_flow, take_ticks};

use super::line::{Cause, Line, Name};
use super::session::Session;
use admission::plan::Plan;
use admission::refusal::{NotAdmitted, Numbered};
use flows::flow::Flow;
use flows::net::Net;
use record_bytes::kind::Kind;
use records::record::{Switch, Ticks};
use records::stage::{Program, Stage};
use std::alloc::{AllocError, Global};

const LAST_TICK: u64 = 1_099_511_627_776;

// What the memories of a whole net have together at most.
const MOST_MEMORY: u64 = 4_194_304;

impl Session {
    pub fn new(heap: Global, program: Program) -> Result<Session, AllocError>
        ensures { IfOk result (λ s. standing s ≡ beginning program) }
    {
        let plan = Plan::new(heap, Net::none())?;
        let stage = match program {
            Program::Ports => Stage::NoSwitch,
            Program::Admit | Program::Evening => Stage::NoNet,
        };
        Ok(Session {
            program,
            stage,
            switch: 0,
            plan,
            clock: 0,
            records: 0,
            numbered: 0,
            no_flow: 0,
            others: 0,
        })
    }

    // How many switches a net must have: so many that the program's own is there.
    pub(crate) fn least_switches(&self) -> u16
        ensures { result ≡ least_switches self.now.program self.now.switch }
    {
        match self.program {
            Program::Ports => u16::from(self.switch) + 1,
            Program::Admit | Program::Evening => 0,
        }
    }

    // What a refused record is called.
    pub(crate) fn name(&self, bytes: &[u8]) -> Name
        ensures { result ≡ name_of self.now.records self.now.numbered bytes.now }
    {
        match Kind::told_by(bytes) {
            Some(Kind::Flow) => Name::Flow {
                number: self.numbered,
            },
            Some(Kind::Net) => Name::Net,
            _ => Name::Record {
                number: self.records,
            },
        }
    }

    pub(crate) fn refuse(&mut self, name: Name, cause: Cause) -> Line
        ensures { (Some result, standing self.new) ≡ refuse (standing self.old) name cause }
    {
        self.others = self.others.saturating_add(1);
        Line::Refused { name, cause }
    }

    // Nothing is said of a switch.
    pub(crate) fn take_switch(&mut self, switch: Switch)
        ensures { (None, standing self.new) ≡ take_switch (standing self.old) switch.number }
    {
        self.switch = switch.number;
        self.stage = Stage::NoNet;
    }

    pub(crate) fn take_net(&mut self, heap: Global, net: Net) -> Result<Line, AllocError>
        ensures { MatchResult result (λ line. (Some line, standing self.new) ≡ take_net (standing self.old) (net_of net)) (λ _. standing self.new ≡ standing self.old) }
    {
        if self.program == Program::Evening && net.memory_together() > MOST_MEMORY {
            return Ok(self.refuse(Name::Net, Cause::Memories));
        }
        self.plan = Plan::new(heap, net)?;
        self.stage = Stage::Still;
        Ok(Line::Net {
            ports: net.count,
            switches: net.switches,
        })
    }

    pub(crate) fn take_flow(&mut self, flow: Flow) -> Result<Line, AllocError>
        ensures { MatchResult result (λ line. (Some line, standing self.new) ≡ take_flow (standing self.old) (flow_of flow)) (λ _. standing self.new ≡ standing self.old) }
    {
        let number = self.numbered;
        // no `?`: these patterns make no error, since a refusal becomes a line, and only want of memory is handed on
        match self.plan.admit(Numbered { number, flow }) {
            Ok(()) => Ok(Line::Admitted { number }),
            Err(NotAdmitted::Refused { refusal }) => {
                Ok(self.refuse(Name::Flow { number }, Cause::Admission { refusal }))
            }
            Err(NotAdmitted::OutOfMemory { error }) => Err(error),
        }
    }

    pub(crate) fn take_ticks(&mut self, ticks: Ticks) -> Option<Line>
        ensures { (result, standing self.new) ≡ take_ticks (standing self.old) ticks.count }
    {
        let clock = self.clock + u64::from(ticks.count);
        if clock > LAST_TICK {
            let number = self.records;
            return Some(self.refuse(Name::Record { number }, Cause::Clock));
        }
        self.clock = clock;
        if ticks.count != 0 {
            self.stage = Stage::Running;
        }
        None
    }
}
