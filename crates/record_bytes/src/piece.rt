// The bytes of one record, and whether they are all there: not where the input ends inside it.
// A struct and no enum of two cases, since the bytes are read in the same way in both.
#[derive(Clone, Copy)]
pub struct Piece<'a> {
    pub bytes: &'a [u8],
    pub whole: bool,
}

// The first record of an input, and what is behind it.
#[derive(Clone, Copy)]
pub struct Split<'a> {
    pub piece: Piece<'a>,
    pub rest: &'a [u8],
}
