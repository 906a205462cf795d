ghost use Rattle.std.specs.Prelude.{◌≡◌};
ghost use Rattle.journal.specs.declared.fault.JournalFault.TheVariants as journal;
ghost use Rattle.archive_core.specs.declared.fault.CommitFault.TheVariants as commit;
ghost use Rattle.archive_core.specs.declared.fault.MountFault.TheVariants as mounting;
ghost use Rattle.archive_core_replay.specs.declared.fault.RestoreFault.TheVariants as restoring;

use archive_core_replay::RestoreFault;
use journal::JournalFault;
use prima_base::{NoMemory, Refusal};

/// Why a command is not accepted, or no checkpoint made. In memory the archive is then as it was.
#[derive(Drop)]
pub enum CommitFault {
    /// An earlier call has answered `Disk`: the archive is to be mounted again. Nothing was done.
    Broken,
    /// The first refusal of the command in the one order; `JournalFull` after all others, and of a
    /// checkpoint alone. Nothing was written.
    Refused(Refusal),
    /// The disk failed, and its count of faults rose. The file has the record or not.
    Disk,
    /// Memory ran out. Nothing was written.
    NoMemory,
}

impl From<NoMemory> for CommitFault {
    ghost from_gives = { λ _ e. e ≡ commit.NoMemory };

    fn from(_error: NoMemory) -> CommitFault {
        CommitFault::NoMemory
    }
}

/// Why a file was not mounted.
#[derive(Clone, Copy, PartialEq, Eq)]
pub enum MountFault {
    /// The disk failed, and its count of faults rose.
    Disk,
    /// The file is no archive's: it is damaged at this place. It was not written.
    Damaged(u64),
    /// Memory ran out. The file is as it was, or the empty journal where it had at most nine bytes.
    NoMemory,
}

// A fault of the journal as one of the mount.
pub(crate) fn fault_of_journal(fault: JournalFault) -> MountFault
    ensures damaged { (place : _) → result ≡ mounting.Damaged place
        → fault ≡ journal.Damaged place }
    ensures disk { result ≡ mounting.Disk → fault ≡ journal.Disk }
    ensures from_disk { fault ≡ journal.Disk → result ≡ mounting.Disk }
{
    match fault {
        JournalFault::Disk => MountFault::Disk,
        JournalFault::Damaged(place) => MountFault::Damaged(place),
        JournalFault::NoMemory => MountFault::NoMemory,
    }
}

// A fault of the restored records as one of the mount. No disk fails there.
pub(crate) fn fault_of_restoring(fault: RestoreFault) -> MountFault
    ensures damaged { (place : _) → result ≡ mounting.Damaged place
        → fault ≡ restoring.Damaged place }
    ensures disk { result ≡ mounting.Disk → ⊥ }
{
    match fault {
        RestoreFault::Damaged(place) => MountFault::Damaged(place),
        RestoreFault::NoMemory => MountFault::NoMemory,
    }
}
