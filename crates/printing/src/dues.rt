// The line of an admitted flow.
ghost use Rattle.std.specs.Prelude.{◌≡◌, Some, ◌++◌, string_bytes, OnOk};
ghost use Rattle.admission.specs.Plans.{plan_of};
ghost use Rattle.admission.specs.Dues.{dues_numbered, dues_model};
ghost use Rattle.script.specs.Lines.{dues_text};
ghost use Rattle.printing.specs.Output.{printed_dues};

use admission::due::Dues;
use admission::plan::Plan;
use std::alloc::AllocError;
use std::fmt;

// What the admitted flow of a number is due, over its whole road and up to each port of it.
#[derive(Clone, Copy)]
struct DuesLine<'a> {
    number: u64,
    dues: &'a Dues,
}

impl fmt::Display for DuesLine<'_> {
    ghost output = { λ line. Some (dues_text line.number (dues_model line.dues.now)) };

    fn fmt<W: fmt::Write>(&self, f: &mut fmt::Formatter<W>) -> fmt::Result {
        let road = self.dues.flow.road();
        // the part of the table that is in use: asked for only here, so no method of `Dues`
        let ticks = &self.dues.ticks[..road.len()];
        write!(f, "flow {}: due {}", self.number, ticks[road.len() - 1])?;
        // a colon stands before the first port, and a comma before each other
        let mut separator = ":";
        for (port, due) in road.iter().zip(ticks) {
            write!(f, "{separator} port {port} {due}")?;
            separator = ",";
        }
        Ok(())
    }
}

// Adds what the admitted flow of a number is due; nothing where there is no such flow. Text and plan as in `add_line`.
pub(crate) fn add_dues(text: &mut String, plan: &Plan, number: u64) -> Result<(), AllocError>
    ensures { OnOk result (string_bytes text.new ≡ string_bytes text.old ++ printed_dues number (dues_numbered (plan_of plan.now) number)) }
{
    let Some(dues) = plan.dues(number) else {
        return Ok(());
    };
    let line = DuesLine {
        number,
        dues: &dues,
    };
    writeln!(text, "{line}")
}
