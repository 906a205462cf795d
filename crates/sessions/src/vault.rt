ghost use Rattle.std.specs.Prelude.{◌≡◌, ℕ, ◌↔◌, ◌⊎◌, Bool, true, length, Result, Err};
ghost use Rattle.smo_ops_types.specs.Commands.{PlainCommand, command_of};
ghost use Rattle.temporal_lang_types.specs.Queries.{query_of};
ghost use Rattle.prima_io.specs.Causes.{Rose};
ghost use Rattle.sessions.specs.declared.vault.VaultDone as done;
ghost use Rattle.sessions.specs.declared.vault.VaultFault as faults_of;
ghost use Rattle.sessions.specs.declared.vault.VaultFault.TheVariants as fault;
ghost use Rattle.sessions.specs.Shared.{Shared};
ghost use Rattle.sessions.specs.Vaults.{IsOfChanges, Commits, IsListed};

use prima_base::{NoMemory, Period, Refusal, Row};
use smo_ops_types::Command;
use std::alloc::{AllocError, AllocFailed};
use temporal_lang_types::Query;

/// What an accepted command did: its stamp, and how many rows it gained and lost over all tables.
#[derive(Clone, Copy, PartialEq, Eq)]
pub struct VaultDone {
    pub stamp: u64,
    pub gained: u64,
    pub lost: u64,
}

/// A row of an answer, and the period in which it holds.
#[derive(Drop)]
pub struct KeptRow {
    pub values: Row,
    pub period: Period,
}

/// Why a call gives no answer. The sessions are then as they were, and so is the vault, but after
/// `Disk`: then it is broken, and the record may stand in its file.
#[derive(Drop)]
pub enum VaultFault {
    /// The first refusal in order of precedence.
    Refused(Refusal),
    /// An earlier call has answered `Disk`.
    Broken,
    /// The disk failed, and its count of faults rose.
    Disk,
    /// Memory ran out.
    NoMemory,
}

impl From<NoMemory> for VaultFault {
    ghost from_gives = { λ _ e. e ≡ fault.NoMemory };

    fn from(_error: NoMemory) -> VaultFault {
        VaultFault::NoMemory
    }
}

impl From<AllocError> for VaultFault {
    ghost from_gives = { λ _ e. e ≡ fault.NoMemory };

    fn from(_error: AllocError) -> VaultFault {
        VaultFault::NoMemory
    }
}

impl<T: Drop> From<AllocFailed<T>> for VaultFault {
    ghost from_gives = { λ _ e. e ≡ fault.NoMemory };

    fn from(_error: AllocFailed<T>) -> VaultFault {
        VaultFault::NoMemory
    }
}

/// What sessions share: an archive, as far as they need one.
pub trait Vault {
    // The past, place and limit that it shows.
    ghost shows: { Self → Shared → Type 0 };

    // The bytes that the record of a command takes.
    ghost needs: { PlainCommand → ℕ };

    // An earlier call has answered that the disk failed.
    ghost is_broken: { Self → Bool };

    // How often its disk has failed.
    ghost faults: { Self → ℕ };

    // All that an implementation says of a command that it is given.
    ghost commits: { Self → PlainCommand → Result done.VaultDone faults_of.VaultFault → Self
        → Type 0 };

    /// The newest version. It takes no memory.
    fn newest(&self) -> u32
        ensures newest { (shared : Shared) → shows self.now shared
            → result ≡ length shared.past.versions }
        ensures known { (shared : Shared) × shows self.now shared };

    /// Commits a command of changes whole, or leaves all as it was. `Broken` comes first, exactly
    /// where an earlier call has answered `Disk`; `Refused` exactly by the first refusal; `Disk`
    /// only where the count of faults rose in this call.
    fn commit(&mut self, command: Command) -> Result<VaultDone, VaultFault>
        requires changes { IsOfChanges (command_of command).body }
        ensures broken { (result ≡ Err fault.Broken) ↔ (is_broken self.old ≡ true) }
        ensures breaks { (is_broken self.new ≡ true)
            ↔ ((is_broken self.old ≡ true) ⊎ (result ≡ Err fault.Disk)) }
        ensures committed { (shared : Shared) → shows self.old shared
            → Commits needs shared (command_of command) result (shows self.new) }
        ensures known { (shared : Shared) × shows self.old shared }
        ensures cause { result ≡ Err fault.Disk → Rose (faults self.old) (faults self.new) }
        ensures unfailed { (result ≡ Err fault.Disk → ⊥) → faults self.new ≡ faults self.old }
        ensures commits { commits self.old (command_of command) result self.new };

    /// The answer of a query, copied, or its first refusal.
    fn listing(&self, query: &Query) -> Result<Vec<KeptRow>, VaultFault>
        ensures listed { (shared : Shared) → shows self.now shared
            → IsListed shared.past (query_of query.now) result }
        ensures known { (shared : Shared) × shows self.now shared };
}
