//! What an archive answers to a session's command, in the words of sessions.

ghost use Rattle.std.specs.Prelude.{◌≡◌};
ghost use Rattle.script_cli_vault.specs.Answered.{fault_of, done_of, answer_of};

use archive_core::{CommitFault, Done};
use sessions::{VaultDone, VaultFault};

// A command's fault.
fn fault_of(fault: CommitFault) -> VaultFault
    ensures { result ≡ fault_of fault }
{
    match fault {
        CommitFault::Refused(refusal) => VaultFault::Refused(refusal),
        CommitFault::Broken => VaultFault::Broken,
        CommitFault::Disk => VaultFault::Disk,
        CommitFault::NoMemory => VaultFault::NoMemory,
    }
}

// What a command of changes did.
fn done_of(done: Done) -> VaultDone
    ensures { result ≡ done_of done }
{
    VaultDone {
        stamp: done.stamp,
        gained: done.gained,
        lost: done.lost,
    }
}

// The answer to a command of changes.
pub(crate) fn answer_of(answer: Result<Done, CommitFault>) -> Result<VaultDone, VaultFault>
    ensures { result ≡ answer_of answer }
{
    match answer {
        Ok(done) => Ok(done_of(done)),
        Err(fault) => Err(fault_of(fault)),
    }
}
