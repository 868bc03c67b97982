// The lines as they are printed.
ghost use Rattle.std.specs.Prelude.{Some};
ghost use Rattle.script.specs.Lines.{name_text, cause_text, line_text};

use super::line::{Cause, Line, Name};
use std::fmt;

impl fmt::Display for Name {
    ghost output = { λ x. Some (name_text x) };

    fn fmt<W: fmt::Write>(&self, f: &mut fmt::Formatter<W>) -> fmt::Result {
        match self {
            Name::Flow { number } => write!(f, "flow {number}"),
            Name::Net => write!(f, "net"),
            Name::Record { number } => write!(f, "record {number}"),
        }
    }
}

impl fmt::Display for Cause {
    ghost output = { λ x. Some (cause_text x) };

    fn fmt<W: fmt::Write>(&self, f: &mut fmt::Formatter<W>) -> fmt::Result {
        match self {
            Cause::Fault { fault } => write!(f, "{fault}"),
            Cause::Admission { refusal } => write!(f, "{refusal}"),
            Cause::Packet { flow } => write!(f, "8: flow {flow}"),
            Cause::Clock => write!(f, "10"),
            Cause::Memories => write!(f, "11"),
        }
    }
}

impl fmt::Display for Line {
    ghost output = { λ x. Some (line_text x) };

    fn fmt<W: fmt::Write>(&self, f: &mut fmt::Formatter<W>) -> fmt::Result {
        match self {
            Line::Net { ports, switches } => write!(f, "net: {ports} ports, {switches} switches"),
            // what the flow is due is known once all flows are
            Line::Admitted { number: _ } => Ok(()),
            Line::Refused { name, cause } => write!(f, "{name}: refused {cause}"),
            Line::Clock { tick } => write!(f, "clock {tick}"),
            Line::Counts { no_flow, others } => {
                write!(
                    f,
                    "refused: {no_flow} packets of no flow, {others} other records"
                )
            }
        }
    }
}
