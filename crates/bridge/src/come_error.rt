ghost use Rattle.std.specs.Prelude.{◌≡◌};
ghost use Rattle.bridge.specs.declared.come_error.ComeError.TheVariants.{OutOfMemory};

use std::alloc::AllocError;

// Why a packet has not come.
#[derive(Clone, Copy, Debug, PartialEq, Eq)]
pub enum ComeError {
    // no regulator here is its own
    NoGate,
    OutOfMemory { error: AllocError },
}

impl From<AllocError> for ComeError {
    ghost from_gives = { λ error e. e ≡ OutOfMemory error };

    fn from(error: AllocError) -> ComeError {
        ComeError::OutOfMemory { error }
    }
}
