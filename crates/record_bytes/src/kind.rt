// What a record is, which its first byte says.
ghost use Rattle.std.specs.Prelude.{◌≡◌, ◌++◌, Some, codes, decimal};
ghost use Rattle.record_bytes.specs.Kinds.{byte_of, kind_in, Decodes};

use std::error::Error;
use std::fmt;

#[derive(Clone, Copy, Debug, PartialEq, Eq)]
pub enum Kind {
    Flow = 1,
    Net = 2,
    Packet = 3,
    Tick = 4,
    Switch = 5,
}

// A byte with which no record begins.
#[derive(Clone, Copy, Debug, PartialEq, Eq)]
pub struct UnknownKind(pub u8);

impl TryFrom<u8> for Kind {
    type Error = UnknownKind;

    ghost try_from_gives = { Decodes };

    // The numbers once more, since a pattern takes no cast; both are proved to be those of one definition.
    fn try_from(first: u8) -> Result<Self, UnknownKind> {
        match first {
            1 => Ok(Kind::Flow),
            2 => Ok(Kind::Net),
            3 => Ok(Kind::Packet),
            4 => Ok(Kind::Tick),
            5 => Ok(Kind::Switch),
            _ => Err(UnknownKind(first)),
        }
    }
}

impl fmt::Display for UnknownKind {
    ghost output = { λ x. Some (codes "no record begins with byte " ++ decimal x.0) };

    fn fmt<W: fmt::Write>(&self, f: &mut fmt::Formatter<W>) -> fmt::Result {
        write!(f, "no record begins with byte {}", self.0)
    }
}

impl Error for UnknownKind {}

// The byte that a record of a kind begins with.
impl From<Kind> for u8 {
    ghost from_gives = { λ kind byte. byte ≡ byte_of kind };

    fn from(kind: Kind) -> u8 {
        kind as u8
    }
}

impl Kind {
    // What the bytes of a record say that it is.
    pub fn told_by(bytes: &[u8]) -> Option<Kind>
        ensures { result ≡ kind_in bytes.now }
    {
        Kind::try_from(*bytes.first()?).ok()
    }
}
