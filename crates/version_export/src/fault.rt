ghost use Rattle.std.specs.Prelude.{◌≡◌};
ghost use Rattle.version_export.specs.declared.fault.ExportFault.TheVariants as fault;

use prima_base::{NoMemory, OpKind};
use std::alloc::AllocFailed;

/// Why a version is not exported.
#[derive(Clone, Copy)]
pub enum ExportFault {
    /// There is no such version: the one that is asked, and the newest.
    NoVersion(u32, u32),
    /// A table of the version, or a column of it, is lost at some moment: the version whose
    /// operator loses it, and the operator's kind. The first such table by name counts.
    NoInverse(u32, OpKind),
    /// A statement would be too long to be read: its stamp, and its length in bytes without the
    /// `;`. The first one counts.
    TooLong(u64, u64),
    /// Memory ran out.
    NoMemory,
}

impl From<NoMemory> for ExportFault {
    ghost from_gives = { λ _ e. e ≡ fault.NoMemory };

    fn from(_error: NoMemory) -> ExportFault {
        ExportFault::NoMemory
    }
}

impl<T: Drop> From<AllocFailed<T>> for ExportFault {
    ghost from_gives = { λ _ e. e ≡ fault.NoMemory };

    fn from(_error: AllocFailed<T>) -> ExportFault {
        ExportFault::NoMemory
    }
}
