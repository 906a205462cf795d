ghost use Rattle.std.specs.Prelude.{◌≡◌};
ghost use Rattle.archive_core_replay.specs.declared.fault.RestoreFault.TheVariants as restoring;

use prima_base::NoMemory;
use std::alloc::{AllocError, AllocFailed};

/// Why no archive is made of the records of a file.
#[derive(Clone, Copy, PartialEq, Eq)]
pub enum RestoreFault {
    /// They are no archive's: the file is damaged at this place.
    Damaged(u64),
    /// Memory ran out.
    NoMemory,
}

impl From<NoMemory> for RestoreFault {
    ghost from_gives = { λ _ e. e ≡ restoring.NoMemory };

    fn from(_error: NoMemory) -> RestoreFault {
        RestoreFault::NoMemory
    }
}

impl From<AllocError> for RestoreFault {
    ghost from_gives = { λ _ e. e ≡ restoring.NoMemory };

    fn from(_: AllocError) -> RestoreFault {
        RestoreFault::NoMemory
    }
}

impl<T: Drop> From<AllocFailed<T>> for RestoreFault {
    ghost from_gives = { λ _ e. e ≡ restoring.NoMemory };

    fn from(_: AllocFailed<T>) -> RestoreFault {
        RestoreFault::NoMemory
    }
}
