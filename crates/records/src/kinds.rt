// Which kinds of records are known where a program stands. Program and stage are two parameters: one never changes and the
// other often does, so whoever calls keeps them apart, and a struct of both would be made for each call.
ghost use Rattle.std.specs.Prelude.{◌≡◌};
ghost use Rattle.records.specs.Kinds.{is_known, kind_of};

use super::stage::{Program, Stage};
use record_bytes::kind::Kind;

// A switch only where there is none, a net only where there is none, and flows only while the net stands still. Packets
// and ticks come to a net, if the program plays.
fn is_known(program: Program, stage: Stage, kind: Kind) -> bool
    ensures { result ≡ is_known program stage kind }
{
    match kind {
        Kind::Switch => stage == Stage::NoSwitch,
        Kind::Net => stage == Stage::NoNet,
        Kind::Flow => stage == Stage::Still,
        Kind::Packet | Kind::Tick => {
            program.plays() && matches!(stage, Stage::Still | Stage::Running)
        }
    }
}

// The kind of a record, if it is known.
pub(crate) fn kind_of(program: Program, stage: Stage, bytes: &[u8]) -> Option<Kind>
    ensures { result ≡ kind_of program stage bytes.now }
{
    Kind::told_by(bytes).filter(|kind| is_known(program, stage, *kind))
}
