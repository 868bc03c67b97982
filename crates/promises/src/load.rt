// What flows ask of one port in one class: the sum of their bursts, the sum of their rates, their longest packet.
#[derive(Clone, Copy, Debug, Default, PartialEq, Eq)]
pub struct Asked {
    pub bursts: u32,
    pub rates: u32,
    pub longest: u8,
}

// What flows ask of one port, class by class.
#[derive(Clone, Copy, Debug, Default, PartialEq, Eq)]
pub struct Load {
    pub classes: [Asked; 8],
}
