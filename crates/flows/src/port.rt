// A port: the switch it stands on, the switch where its wire ends, and the ticks that its wire takes.
#[derive(Clone, Copy, Debug, Default, PartialEq, Eq)]
pub struct Port {
    pub switch: u8,
    pub ends: u8,
    pub wire: u16,
}
