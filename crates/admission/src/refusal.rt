ghost use Rattle.std.specs.Prelude.{◌≡◌, Some, alloc_error};
ghost use Rattle.admission.specs.Texts.{refusal_text};
ghost use Rattle.admission.specs.declared.refusal.NotAdmitted.TheVariants.{Refused, OutOfMemory};

use flows::flow::Flow;
use std::alloc::{AllocError, AllocFailed};
use std::fmt;

// A flow that is admitted or is to be, and its number.
#[derive(Clone, Copy)]
pub struct Numbered {
    pub number: u64,
    pub flow: Flow,
}

// The first test that a flow fails, alone or with those admitted before it.
#[derive(Clone, Copy, Debug, PartialEq, Eq)]
pub enum Refusal {
    // 3: no road through this net
    Road,
    // 7: more than 256 flows
    Crowded,
    // 4: a port promised more than all of itself: the lowest such port
    Promised { port: u8 },
    // 5: a flow due after its deadline: the first such
    Late { flow: u64 },
    // 6: memory: the lowest switch that has not enough
    Memory { switch: u8 },
}

impl fmt::Display for Refusal {
    ghost output = { λ x. Some (refusal_text x) };

    fn fmt<W: fmt::Write>(&self, f: &mut fmt::Formatter<W>) -> fmt::Result {
        match self {
            Refusal::Road => write!(f, "3"),
            Refusal::Promised { port } => write!(f, "4: port {port}"),
            Refusal::Late { flow } => write!(f, "5: flow {flow}"),
            Refusal::Memory { switch } => write!(f, "6: switch {switch}"),
            Refusal::Crowded => write!(f, "7"),
        }
    }
}

// Why a flow is not admitted.
#[derive(Clone, Copy, Debug, PartialEq, Eq)]
pub enum NotAdmitted {
    Refused { refusal: Refusal },
    OutOfMemory { error: AllocError },
}

impl From<Refusal> for NotAdmitted {
    ghost from_gives = { λ r e. e ≡ Refused r };

    fn from(refusal: Refusal) -> NotAdmitted {
        NotAdmitted::Refused { refusal }
    }
}

impl<T: Drop> From<AllocFailed<T>> for NotAdmitted {
    ghost from_gives = { λ _ e. e ≡ OutOfMemory alloc_error };

    fn from(failed: AllocFailed<T>) -> NotAdmitted {
        NotAdmitted::OutOfMemory {
            error: failed.into(),
        }
    }
}
