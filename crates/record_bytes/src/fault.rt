ghost use Rattle.std.specs.Prelude.{Some};
ghost use Rattle.record_bytes.specs.Texts.{fault_text};

use std::fmt;

// The first fault of a record, with its place: the offset of a byte, counted from 0 at the kind.
#[derive(Clone, Copy, Debug, PartialEq, Eq)]
pub enum Fault {
    // 1: an unknown kind, a byte missing, a byte too many
    Length { at: usize },
    // 2: a number out of its range
    Range { at: usize },
    // 3: a port twice on a road, or not on the switch where the wire before ends
    Road { at: usize },
}

impl fmt::Display for Fault {
    ghost output = { λ x. Some (fault_text x) };

    fn fmt<W: fmt::Write>(&self, f: &mut fmt::Formatter<W>) -> fmt::Result {
        match self {
            Fault::Length { at } => write!(f, "1: byte {at}"),
            Fault::Range { at } => write!(f, "2: byte {at}"),
            Fault::Road { at } => write!(f, "3: byte {at}"),
        }
    }
}
