ghost use Rattle.std.specs.Prelude.{◌≡◌};
ghost use Rattle.journal.specs.declared.fault.PutFault.TheVariants as put;
ghost use Rattle.journal.specs.declared.fault.JournalFault.TheVariants as mounting;

use prima_base::Failed;
use std::alloc::{AllocError, AllocFailed};

/// Why a record was not put.
#[derive(Clone, Copy, PartialEq, Eq)]
pub enum PutFault {
    /// The record does not fit: the gate's place, the bytes that it needs, and the limit. Nothing
    /// was done.
    Full { at: u64, need: u64, limit: u64 },
    /// The disk failed, and its count of faults rose. The journal is to be mounted again.
    Disk,
}

impl From<Failed> for PutFault {
    ghost from_gives = { λ _ e. e ≡ put.Disk };

    fn from(_: Failed) -> PutFault {
        PutFault::Disk
    }
}

/// Why a journal was not mounted.
#[derive(Clone, Copy, PartialEq, Eq)]
pub enum JournalFault {
    /// The disk failed, and its count of faults rose.
    Disk,
    /// The file is no journal: it leaves the grammar at this place. It was not written.
    Damaged(u64),
    /// Memory ran out.
    NoMemory,
}

impl From<Failed> for JournalFault {
    ghost from_gives = { λ _ e. e ≡ mounting.Disk };

    fn from(_: Failed) -> JournalFault {
        JournalFault::Disk
    }
}

impl From<AllocError> for JournalFault {
    ghost from_gives = { λ _ e. e ≡ mounting.NoMemory };

    fn from(_: AllocError) -> JournalFault {
        JournalFault::NoMemory
    }
}

impl<T: Drop> From<AllocFailed<T>> for JournalFault {
    ghost from_gives = { λ _ e. e ≡ mounting.NoMemory };

    fn from(_: AllocFailed<T>) -> JournalFault {
        JournalFault::NoMemory
    }
}

/// Why the records of a list were not all tried.
#[derive(Clone, Copy, PartialEq, Eq)]
pub enum PutsFault {
    /// The journal was not mounted.
    NotMounted(JournalFault),
    /// The disk failed in a put, and its count of faults rose; so many records had been put before.
    Stopped(usize),
}
