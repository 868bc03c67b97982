// Reads a net and a script of packets and ticks, and says of each record what it is or why it is refused.
// Each program is a crate of its own, of which this is all.
#![tactic(auto)]

ghost use Rattle.std.specs.Prelude.{Some, IfOk, IfErr, OnOk, codes};
ghost use Rattle.std.specs.Io.KnownBytes.{IsAtEnd};
ghost use Rattle.anyhow.specs.Error.{HasMessage};
ghost use Rattle.printing.specs.Sent.{Prints};

use printing::run::run;
use records::stage::Program;
use std::alloc::Global;
use std::io::{Read, Write};

fn main(rt: HostRuntime) -> anyhow::Result<()> {
    read_and_print(rt.alloc(), &mut rt.stdin(), rt.stdout())?;
    Ok(())
}

// Over any reader and any writer.
fn read_and_print<R: Read, W: Write + Drop>(
    heap: Global,
    reader: &mut R,
    writer: W,
) -> anyhow::Result<W>
    ensures written { IfOk result (λ w. Prints Program.Evening (R.remaining reader.old) (W.contents writer) (W.contents w)) }
    ensures read { OnOk result (IsAtEnd (R.remaining reader.new)) }
    ensures named { IfErr result (HasMessage (Some (codes "evening"))) }
{
    run(heap, Program::Evening, reader, writer)
}
