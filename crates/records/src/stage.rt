ghost use Rattle.std.specs.Prelude.{◌≡◌};
ghost use Rattle.records.specs.Kinds.{plays};

// Which of the three programs reads.
#[derive(Clone, Copy, Debug, PartialEq, Eq)]
pub enum Program {
    Admit,
    Ports,
    Evening,
}

impl Program {
    // `admit` only plans; the others play.
    pub fn plays(self) -> bool
        ensures { result ≡ plays self }
    {
        self != Program::Admit
    }
}

// Where a program stands: it has no switch yet, no net yet, a net that stands still, or one that runs.
#[derive(Clone, Copy, Debug, PartialEq, Eq)]
pub enum Stage {
    NoSwitch,
    NoNet,
    Still,
    Running,
}
