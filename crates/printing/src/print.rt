// What a program prints, in parts, so that a long output need not be held whole.
ghost use Rattle.std.specs.Prelude.{◌≡◌, ◌<◌, ◌++◌, length, IfSome, IfOk, string_bytes, OnOk};
ghost use Rattle.admission.specs.Plans.{plan_of};
ghost use Rattle.printing.specs.Output.{printed, printed_all, output};
ghost use Rattle.printing.specs.Parts.{to_come, Told};

use super::dues::add_dues;
use super::printout::{Part, Printout};
use super::settle::settle;
use admission::plan::Plan;
use record_bytes::records::Records;
use records::stage::Program;
use script::line::Line;
use script::session::Session;
use std::alloc::{AllocError, Global};

// A part is at least so many bytes long, if it is not the last.
const PART_BYTES: usize = 65_536;

// Adds a line, with the dues of a plan. Text and plan are in no struct: the one is written and the other read, for a call.
fn add_line(text: &mut String, plan: &Plan, line: Line) -> Result<(), AllocError>
    ensures { OnOk result (string_bytes text.new ≡ string_bytes text.old ++ printed (plan_of plan.now) line) }
{
    match line {
        Line::Admitted { number } => add_dues(text, plan, number),
        _ => writeln!(text, "{line}"),
    }
}

fn add_lines(text: &mut String, plan: &Plan, lines: &[Line]) -> Result<(), AllocError>
    ensures { OnOk result (string_bytes text.new ≡ string_bytes text.old ++ printed_all (plan_of plan.now) lines.now) }
{
    for line in lines {
        add_line(text, plan, *line)?;
    }
    Ok(())
}

impl<'a> Printout<'a> {
    // All that a program prints for an input. Heap, program and input go together to where they are taken apart: a struct
    // of the three would be made for one call.
    pub fn new(heap: Global, program: Program, input: &'a [u8]) -> Result<Self, AllocError>
        ensures { IfOk result (λ p. to_come p ≡ output program input.now) }
    {
        let last = settle(heap, program, input)?;
        let session = Session::new(heap, program)?;
        Ok(Printout {
            session,
            records: Records::new(input),
            plan: last.plan,
        })
    }

    // The lines of the next records, until they are long enough for a part; some records fewer are left after it. Where
    // no record is left, what is said at the end belongs to it, and it is the last.
    pub fn next_part(mut self, heap: Global) -> Result<Part<'a>, AllocError>
        ensures text { IfOk result (λ p. Told p (to_come self.entry)) }
        ensures fewer { IfOk result (λ p. IfSome p.rest (λ q. length q.records.rest.now < length self.entry.records.rest.now)) }
    {
        let mut text = String::new(heap);
        while let Some(piece) = self.records.next() {
            let Some(line) = self.session.take(heap, piece)? else {
                continue;
            };
            add_line(&mut text, &self.plan, line)?;
            if text.len() >= PART_BYTES {
                return Ok(Part {
                    text,
                    rest: Some(self),
                });
            }
        }
        if let Some(lines) = self.session.closing() {
            add_lines(&mut text, &self.plan, &lines)?;
        }
        Ok(Part { text, rest: None })
    }
}

// All that a program prints for an input, as one text.
pub fn whole_text(heap: Global, program: Program, input: &[u8]) -> Result<String, AllocError>
    ensures { IfOk result (λ s. string_bytes s ≡ output program input.now) }
{
    all_parts(heap, Printout::new(heap, program, input)?)
}

// The parts in one text. The same loop sends them in `print`, where a part that fails leaves what was sent.
fn all_parts(heap: Global, first: Printout) -> Result<String, AllocError>
    ensures { IfOk result (λ s. string_bytes s ≡ to_come first.entry) }
{
    let mut text = String::new(heap);
    let mut next = Some(first);
    while let Some(printout) = next {
        let part = printout.next_part(heap)?;
        text.push_str(part.text.as_str())?;
        next = part.rest;
    }
    Ok(text)
}
