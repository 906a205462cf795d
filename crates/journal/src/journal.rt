ghost use Rattle.std.specs.Prelude.{◌≡◌, ◌+◌, ◌-◌, ◌^◌, ◌<◌, ◌↔◌, ℕ, Err, IfErr, OnOk};
ghost use Rattle.prima_io.specs.Causes.{Rose};
ghost use Rattle.disk_model.specs.Meaning.{BothKnown};
ghost use Rattle.journal.specs.Puts.{Puts, Acknowledges};
ghost use Rattle.journal.specs.JournalFiles.{HasGate, sealed_record, needs, with_record};
ghost use Rattle.journal.specs.declared.fault.PutFault.TheVariants as put;

use crate::fault::PutFault;
use crate::sealed::Sealed;
use crate::synced_write::write_and_sync;
use disk_model::Disk;

/// Records on a disk, after one another. A record counts once the gate before it is open. The last
/// gate, at `at`, is not open, and no record reaches past `limit` bytes.
#[derive(Drop)]
pub struct Journal<D: Disk> {
    pub(crate) disk: D,
    pub(crate) at: u64,
    pub(crate) limit: u64,
    ghost limited: { limit < 2 ^ 64 - 1 },
}

impl<D: Disk> Journal<D> {
    ghost use Rattle.journal.specs.Fields.{below, place_of, limit_of, disk_of};

    /// Puts a record after the others. `Full` comes exactly where it would end past the limit,
    /// and then nothing was done. `Disk` comes only where the disk's count of faults rose; the
    /// journal is then to be mounted again. At each moment of the call a crash leaves the records
    /// before, with the new one or without; after `Ok` every crash leaves it. It takes no memory.
    pub fn put(&mut self, sealed: &Sealed) -> Result<(), PutFault>
        requires ready { HasGate (below self.old) (place_of self.old) }
        ensures full { (result ≡ Err (put.Full (place_of self.old)
            (needs (sealed_record sealed.now)) (limit_of self.old)))
            ↔ (limit_of self.old < place_of self.old + needs (sealed_record sealed.now)) }
        ensures full_alone { (at need limit : ℕ) → result ≡ Err (put.Full at need limit)
            → limit_of self.old < place_of self.old + needs (sealed_record sealed.now) }
        ensures only_full { IfErr result (λ e. (e ≡ put.Disk → ⊥)
            → limit_of self.old < place_of self.old + needs (sealed_record sealed.now)) }
        ensures unchanged { limit_of self.old < place_of self.old + needs (sealed_record sealed.now)
            → (disk_of self.new ≡ disk_of self.old) × (place_of self.new ≡ place_of self.old) }
        ensures limit { limit_of self.new ≡ limit_of self.old }
        ensures place { OnOk result
            (place_of self.new + 1 ≡ place_of self.old + needs (sealed_record sealed.now)) }
        ensures ready { OnOk result (HasGate (below self.new) (place_of self.new)) }
        ensures written { OnOk result (BothKnown
            (λ old new. new ≡ with_record old (place_of self.old) (sealed_record sealed.now))
            (below self.old).seen (below self.new).seen) }
        ensures cause { result ≡ Err put.Disk
            → Rose (below self.old).faults (below self.new).faults }
        ensures unfailed { OnOk result ((below self.new).faults ≡ (below self.old).faults) }
        ensures puts { Puts (below self.old) (below self.new) (place_of self.old)
            (sealed_record sealed.now) }
        ensures acknowledged { OnOk result (Acknowledges (below self.old) (below self.new)
            (place_of self.old) (place_of self.new) (sealed_record sealed.now)) }
    {
        let bytes = sealed.bytes();
        let need = bytes.len() as u64 + 1;
        if self.at > self.limit || self.limit - self.at < need {
            return Err(PutFault::Full {
                at: self.at,
                need,
                limit: self.limit,
            });
        }
        write_and_sync(&mut self.disk, self.at + 1, bytes)?;
        write_and_sync(&mut self.disk, self.at, &[1])?;
        self.at += need - 1;
        Ok(())
    }

    /// The disk as it stands. It takes no memory.
    pub fn into_disk(self) -> D
        ensures { result ≡ disk_of self }
    {
        self.disk
    }
}
