use admission::refusal::Refusal;
use record_bytes::fault::Fault;

// What a refused record is called, by its first byte alone.
#[derive(Clone, Copy, Debug, PartialEq, Eq)]
pub enum Name {
    Flow { number: u64 },
    Net,
    Record { number: u64 },
}

// Why a record is refused.
#[derive(Clone, Copy, Debug, PartialEq, Eq)]
pub enum Cause {
    // 1, 2 or 3, at a byte
    Fault { fault: Fault },
    // 3 to 7: the first test of admission that a flow fails
    Admission { refusal: Refusal },
    // 8: a packet of no flow, or longer than its longest, or of length 0, or by a port that is not its own
    Packet { flow: u16 },
    // 10: the clock would pass its end
    Clock,
    // 11: memories above what a whole net may have together
    Memories,
}

// What is said of a record.
#[derive(Clone, Copy, Debug, PartialEq, Eq)]
pub enum Line {
    Net { ports: u8, switches: u8 },
    Admitted { number: u64 },
    Refused { name: Name, cause: Cause },
    Clock { tick: u64 },
    Counts { no_flow: u64, others: u64 },
}
