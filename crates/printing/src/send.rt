// Bytes to a writer, so that it is known what came there also where writing fails.
ghost use Rattle.std.specs.Prelude.{OnOk};
ghost use Rattle.std.specs.Io.KnownBytes.{Appends};
ghost use Rattle.printing.specs.Sent.{Begun};

use std::io;
use std::io::{ErrorKind, Write};

// Writes all bytes, or where it fails those before the failure. A write that was interrupted is tried again.
pub fn send<W: Write>(bytes: &[u8], out: &mut W) -> io::Result<()>
    ensures all { OnOk result (Appends (W.contents out.old) (W.contents out.new) bytes.now) }
    ensures begun { Begun (W.contents out.old) (W.contents out.new) bytes.now }
{
    let mut rest = bytes;
    // counted, since a loop that tries again whatever comes need not end
    for _ in 0..u64::MAX {
        if rest.is_empty() {
            return Ok(());
        }
        match out.write(rest) {
            Ok(0) => return Err(io::Error::from(ErrorKind::WriteZero)),
            Ok(count) => rest = &rest[count..],
            Err(error) => {
                if error.kind() != ErrorKind::Interrupted {
                    return Err(error);
                }
            }
        }
    }
    Err(io::Error::from(ErrorKind::TimedOut))
}
