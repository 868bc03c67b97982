// A program as it is run, over any reader and any writer.
ghost use Rattle.std.specs.Prelude.{Some, IfOk, IfErr, OnOk};
ghost use Rattle.std.specs.Io.KnownBytes.{Appends, IsAtEnd};
ghost use Rattle.anyhow.specs.Error.{HasMessage};
ghost use Rattle.records.specs.Programs.{name_of};
ghost use Rattle.printing.specs.Output.{output};
ghost use Rattle.printing.specs.Parts.{to_come};
ghost use Rattle.printing.specs.Sent.{Begun, Prints};

use super::printout::Printout;
use super::send::send;
use anyhow::Context;
use records::stage::Program;
use std::alloc::Global;
use std::io;
use std::io::{BufWriter, Read, Write};

// Reads all there is, and writes what a program prints for it, and nothing else; the writer comes back. Where that fails,
// the program's name is what is said first.
pub fn run<R: Read, W: Write + Drop>(
    heap: Global,
    program: Program,
    reader: &mut R,
    writer: W,
) -> anyhow::Result<W>
    ensures written { IfOk result (λ w. Prints program (R.remaining reader.old) (W.contents writer) (W.contents w)) }
    ensures read { OnOk result (IsAtEnd (R.remaining reader.new)) }
    ensures named { IfErr result (HasMessage (Some (name_of program))) }
{
    read_and_print(heap, program, reader, writer).context(program)
}

fn read_and_print<R: Read, W: Write + Drop>(
    heap: Global,
    program: Program,
    reader: &mut R,
    writer: W,
) -> anyhow::Result<W>
    ensures written { IfOk result (λ w. Prints program (R.remaining reader.old) (W.contents writer) (W.contents w)) }
    ensures read { OnOk result (IsAtEnd (R.remaining reader.new)) }
{
    let mut input = Vec::new(heap);
    reader.read_to_end(&mut input)?;
    let mut out = BufWriter::new(heap, writer)?;
    print(heap, program, input.as_slice(), &mut out)?;
    let mut writer = out.into_inner().map_err(io::Error::from)?;
    writer.flush()?;
    Ok(writer)
}

// Writes what a program prints for an input, part by part, and nothing else; where it fails, a beginning of it.
pub fn print<W: Write>(
    heap: Global,
    program: Program,
    input: &[u8],
    out: &mut W,
) -> anyhow::Result<()>
    ensures all { OnOk result (Appends (W.contents out.old) (W.contents out.new) (output program input.now)) }
    ensures begun { Begun (W.contents out.old) (W.contents out.new) (output program input.now) }
{
    print_parts(heap, Printout::new(heap, program, input)?, out)
}

fn print_parts<W: Write>(heap: Global, first: Printout, out: &mut W) -> anyhow::Result<()>
    ensures all { OnOk result (Appends (W.contents out.old) (W.contents out.new) (to_come first.entry)) }
    ensures begun { Begun (W.contents out.old) (W.contents out.new) (to_come first.entry) }
{
    let mut next = Some(first);
    while let Some(printout) = next {
        let part = printout.next_part(heap)?;
        send(part.text.as_bytes(), out)?;
        next = part.rest;
    }
    Ok(())
}
