// The records of an input, one after the other.
ghost use Rattle.std.specs.Prelude.{◌≡◌, length};
ghost use Rattle.std.specs.Iterator.{at_most};
ghost use Rattle.record_bytes.specs.Row.{next_record, OneRow};
ghost use Rattle.record_bytes.specs.Answers.{GivesNext, first};

use super::piece::{Piece, Split};

#[derive(Clone, Copy)]
pub struct Records<'a> {
    pub rest: &'a [u8],
}

impl<'a> Records<'a> {
    pub fn new(input: &'a [u8]) -> Self
        ensures { result.rest.now ≡ input.now }
    {
        Records { rest: input }
    }
}

impl<'a> Iterator for Records<'a> {
    type Item = Piece<'a>;

    ghost next_gives = { GivesNext };

    ghost remaining = { λ records. at_most (length records.rest.now) };

    // The next record; None, and nothing taken, at the end.
    #[tactic(auto, using(crate::proofs::Row::row_next, crate::proofs::Row::row_end))]
    fn next(&mut self) -> Option<Piece<'a>> {
        let split = split_first(self.rest)?;
        self.rest = split.rest;
        Some(split.piece)
    }
}

// The first record of an input, if there is one. Going on so gives the one row of records that the input is.
#[tactic(auto, using(crate::proofs::Row::one_row))]
fn split_first<'a>(input: &'a [u8]) -> Option<Split<'a>>
    ensures value { first result ≡ next_record input.now }
    ensures one { OneRow }
{
    let (size, body) = match input {
        [] => return None,
        [_] => {
            let piece = Piece {
                bytes: &[],
                whole: false,
            };
            return Some(Split { piece, rest: &[] });
        }
        [high, low, body @ ..] => (u16::from_be_bytes([*high, *low]), body),
    };
    let Some((bytes, rest)) = body.split_at_checked(size.into()) else {
        let piece = Piece {
            bytes: body,
            whole: false,
        };
        return Some(Split { piece, rest: &[] });
    };
    let piece = Piece { bytes, whole: true };
    Some(Split { piece, rest })
}
