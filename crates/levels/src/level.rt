ghost use Rattle.std.specs.Prelude.{◌*◌, ◌≤◌};

// What a flow may still send into a queue: its level in millionths of a tick at its last tick, which never passes its
// burst.
#[derive(Clone, Copy, Debug, PartialEq, Eq)]
pub struct Level {
    pub burst: u16,
    pub rate: u32,
    pub level: u64,
    pub last: u64,
    ghost rate_some: { 1 ≤ rate },
    ghost rate_whole: { rate ≤ 1000000 },
    ghost burst_short: { burst ≤ 65535 },
    ghost level_low: { level ≤ 1000000 * burst },
}
