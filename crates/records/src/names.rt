// What each program is called, and which program a name means.
ghost use Rattle.std.specs.Prelude.{Some, codes};
ghost use Rattle.records.specs.Programs.{name_of, MeansProgram};

use super::stage::Program;
use std::error::Error;
use std::fmt;
use std::str::FromStr;

// A name that no program has.
#[derive(Clone, Copy, Debug, PartialEq, Eq)]
pub struct UnknownProgram;

impl fmt::Display for Program {
    ghost output = { λ program. Some (name_of program) };

    fn fmt<W: fmt::Write>(&self, f: &mut fmt::Formatter<W>) -> fmt::Result {
        f.write_str(match self {
            Program::Admit => "admit",
            Program::Ports => "ports",
            Program::Evening => "evening",
        })
    }
}

impl FromStr for Program {
    type Err = UnknownProgram;

    ghost from_str_gives = { MeansProgram };

    fn from_str(name: &str) -> Result<Program, UnknownProgram> {
        // each name stands here and above: three constants would say no more
        match name {
            "admit" => Ok(Program::Admit),
            "ports" => Ok(Program::Ports),
            "evening" => Ok(Program::Evening),
            _ => Err(UnknownProgram),
        }
    }
}

impl fmt::Display for UnknownProgram {
    ghost output = { λ _. Some (codes "no program of this name") };

    fn fmt<W: fmt::Write>(&self, f: &mut fmt::Formatter<W>) -> fmt::Result {
        f.write_str("no program of this name")
    }
}

impl Error for UnknownProgram {}
