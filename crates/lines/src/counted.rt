use super::line::Line;

// A line of packets, and the ticks of sending that wait in it.
#[derive(Clone, Copy, Debug, Default, PartialEq, Eq)]
pub struct Counted {
    pub line: Line,
    pub ticks: u64,
}
