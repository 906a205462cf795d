ghost use Rattle.std.specs.Prelude.{◌≡◌, IfOk, ◌+◌, length};
ghost use Rattle.smo_ops_types.specs.Changes.{change_of, changes_of};
ghost use Rattle.smo_ops_types.specs.declared.change.Change as one;
ghost use Rattle.sessions.specs.Meaning.{transaction_of};
ghost use Rattle.sessions.specs.Buffering.{Buffers};

use crate::VaultFault;
use prima_base::limits::MAX_CHANGES;
use prima_base::{NoMemory, Refusal, What};
use smo_ops_types::Change;
use std::alloc::Global;

/// A begun transaction: the newest version at its beginning, and its changes so far.
#[derive(Drop)]
pub struct Transaction {
    pub(crate) began: u32,
    pub(crate) changes: Vec<Change>,
}

impl Transaction {
    // Adds changes after the others, and says how many there are.
    pub(crate) fn buffer(&mut self, changes: Vec<Change>) -> Result<u64, VaultFault>
        ensures { Buffers (transaction_of self.old) (changes_of changes.items) result
            (transaction_of self.new) }
    {
        let mut added = changes;
        if self.changes.len() + added.len() > MAX_CHANGES {
            return Err(VaultFault::Refused(Refusal::TooMany(What::Changes, MAX_CHANGES as u64)));
        }
        self.changes.append(&mut added)?;
        Ok(self.changes.len() as u64)
    }
}

// Equal changes, in their order.
pub(crate) fn copy_changes(alloc: Global, changes: &[Change]) -> Result<Vec<Change>, NoMemory>
    ensures { IfOk result (λ v. changes_of v.items ≡ changes_of changes.now) }
{
    let mut copied = Vec::with_capacity(alloc, changes.len())?;
    for change in changes {
        copied.push(change.copy(alloc)?)?;
    }
    Ok(copied)
}
