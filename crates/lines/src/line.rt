// Where a line of what waits begins in its cells, and how many wait. The cells are lent to each call, and not
// held here.
#[derive(Clone, Copy, Debug, Default, PartialEq, Eq)]
pub struct Line {
    pub first: usize,
    pub count: usize,
}
