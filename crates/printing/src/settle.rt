// The plan of a whole input, which is known once all its flows are read.
ghost use Rattle.std.specs.Prelude.{◌≡◌, IfOk};
ghost use Rattle.record_bytes.specs.Row.{row};
ghost use Rattle.script.specs.Models.{standing};
ghost use Rattle.script.specs.Session.{after_all};
ghost use Rattle.admission.specs.Plans.{plan_of};
ghost use Rattle.printing.specs.Output.{last_plan};

use record_bytes::records::Records;
use records::stage::{Program, Stage};
use script::session::Session;
use std::alloc::{AllocError, Global};

// A program that has come so far that its plan is the one of the whole input.
pub fn settle(heap: Global, program: Program, input: &[u8]) -> Result<Session, AllocError>
    ensures { IfOk result (λ s. plan_of s.plan ≡ last_plan program input.now) }
{
    take_flows(heap, Session::new(heap, program)?, Records::new(input))
}

// Once standstill has ended, no flow is known any more, and the rest of the input is left alone.
fn take_flows(
    heap: Global,
    mut session: Session,
    mut records: Records,
) -> Result<Session, AllocError>
    ensures { IfOk result (λ s. plan_of s.plan ≡ (after_all (standing session) (row records.entry.rest.now)).plan) }
{
    while let Some(piece) = records.next() {
        session.take(heap, piece)?;
        if session.stage == Stage::Running {
            return Ok(session);
        }
    }
    Ok(session)
}
