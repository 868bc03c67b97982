// What a regulator goes by at a tick: the class of each flow, and whether packets enter the net here, where they are marked.
// That is a flag, since the tick is needed either way.
// The classes stand beside the levels, and not in one table with them: they are only read.
#[derive(Clone, Copy, Debug, PartialEq, Eq)]
pub struct Regulator<'a> {
    pub classes: &'a [u8],
    pub at_edge: bool,
    pub tick: u64,
}
