//! Mounting the file of a disk: an empty journal is begun where there is none, and the records of a
//! journal are read.

ghost use Rattle.std.specs.Prelude.{◌≡◌, ◌+◌, ◌-◌, ◌^◌, ◌<◌, ◌≤◌, IsTrue, List, ℕ, [], length, min};
ghost use Rattle.std.specs.Prelude.{◌⊎◌, Some, Err, IfOk, IfErr, OnOk, OnErr};
ghost use Rattle.prima_io.specs.Causes.{Rose};
ghost use Rattle.disk_model.specs.Meaning.{IfKnown, BothKnown, Only};
ghost use Rattle.disk_model.specs.Moments.{GoesOn, Leaves};
ghost use Rattle.journal.specs.Damage.{IsDamagedAt};
ghost use Rattle.journal.specs.Mounting.{SameOrNine, IsNotSynced, KeepsFile};
ghost use Rattle.journal.specs.Reading.{IsOpened, AreInPlace, records_in};
ghost use Rattle.journal.specs.Records.{empty_journal, opened_file};
ghost use Rattle.journal.specs.JournalFiles.{Stands, HasGate};
ghost use Rattle.journal.specs.declared.fault.JournalFault.TheVariants as mounting;

use crate::fault::JournalFault;
use crate::journal::Journal;
use crate::reader::read_records;
use crate::rec::Rec;
use crate::synced_write::write_and_sync;
use disk_model::{Disk, Failed};
use std::alloc::Global;

const EMPTY: [u8; 9] = *b"PRIMA001\0";

// Makes the empty journal of a file of at most nine bytes, unless it is one.
fn begin<D: Disk>(disk: &mut D, len: u64) -> Result<(), Failed>
    requires short { len ≤ 9 }
    requires len { IfKnown (D.meaning disk.old).seen (λ file. len ≡ length file) }
    ensures goes { GoesOn (D.meaning disk.old) (D.meaning disk.new) }
    ensures same_or_nine { (file : List ℕ) → IsTrue (D.meaning disk.old).is_honest
        → (D.meaning disk.old).seen ≡ Some file → Only file (D.meaning disk.old).may_leave
        → Leaves (D.meaning disk.old) (D.meaning disk.new) (SameOrNine file) }
    ensures stands { OnOk result ((file : List ℕ) → IsTrue (D.meaning disk.old).is_honest
        → (D.meaning disk.old).seen ≡ Some file → Only file (D.meaning disk.old).may_leave
        → Stands (D.meaning disk.new) 8 []) }
    ensures file { OnOk result (BothKnown (λ old new. new ≡ empty_journal)
        (D.meaning disk.old).seen (D.meaning disk.new).seen) }
    ensures cause { OnErr result (Rose (D.meaning disk.old).faults (D.meaning disk.new).faults) }
    ensures unfailed { OnOk result ((D.meaning disk.new).faults ≡ (D.meaning disk.old).faults) }
{
    if len == 9 {
        let mut bytes = [0u8; 9];
        disk.read_at(0, &mut bytes)?;
        if bytes == EMPTY {
            return Ok(());
        }
    }
    write_and_sync(disk, 0, &EMPTY)?;
    Ok(())
}

// Reads the records of a file that is synced.
fn open_synced<D: Disk>(alloc: Global, disk: &mut D) -> Result<(Vec<Rec>, u64), JournalFault>
    ensures goes { GoesOn (D.meaning disk.old) (D.meaning disk.new) }
    ensures same_or_nine { (file : List ℕ) → IsTrue (D.meaning disk.old).is_honest
        → (D.meaning disk.old).seen ≡ Some file → Only file (D.meaning disk.old).may_leave
        → Leaves (D.meaning disk.old) (D.meaning disk.new) (SameOrNine file) }
    ensures opened { IfOk result
        (λ it. IfKnown (D.meaning disk.old).seen (λ file. IsOpened file it.0.items it.1)) }
    ensures in_place { IfOk result (λ it. AreInPlace it.0.items) }
    ensures stands { IfOk result (λ it. (file : List ℕ) → IsTrue (D.meaning disk.old).is_honest
        → (D.meaning disk.old).seen ≡ Some file → Only file (D.meaning disk.old).may_leave
        → Stands (D.meaning disk.new) it.1 (records_in it.0.items)) }
    ensures ready { IfOk result (λ it. HasGate (D.meaning disk.new) it.1) }
    ensures file { OnOk result (BothKnown (λ old new. new ≡ opened_file old)
        (D.meaning disk.old).seen (D.meaning disk.new).seen) }
    ensures untouched { IfErr result (λ e. (e ≡ mounting.Disk → ⊥)
        → (D.meaning disk.new).seen ≡ (D.meaning disk.old).seen) }
    ensures damaged { (place : _) → result ≡ Err (mounting.Damaged place)
        → IfKnown (D.meaning disk.old).seen (λ file. IsDamagedAt file place) }
    ensures cause { result ≡ Err mounting.Disk
        → Rose (D.meaning disk.old).faults (D.meaning disk.new).faults }
    ensures unfailed { (result ≡ Err mounting.Disk → ⊥)
        → (D.meaning disk.new).faults ≡ (D.meaning disk.old).faults }
{
    let len = disk.len()?;
    if len <= 9 {
        begin(disk, len)?;
        return Ok((Vec::new(alloc), 8));
    }
    read_records(alloc, disk, len)
}

impl<D: Disk> Journal<D> {
    ghost use Rattle.journal.specs.Fields.{below, place_of, limit_of};

    /// Opens the journal that the file on a disk holds: its records, in order. It begins with a
    /// sync. A file of at most nine bytes is made the empty journal, unless it is one: that and any
    /// longer file are read alone. A limit of `u64::MAX` bytes counts as one less. `Disk` comes
    /// only where the disk's count of faults rose, and `Damaged` exactly where the file leaves the
    /// grammar of journals, with the place; a fault hands the disk back as it then stands.
    pub fn mount(
        alloc: Global,
        disk: D,
        limit: u64,
    ) -> Result<(Journal<D>, Vec<Rec>), (D, JournalFault)>
        ensures limit { IfOk result (λ it. limit_of it.0 ≡ min limit (2 ^ 64 - 2)) }
        ensures opened { IfOk result (λ it. IfKnown (D.meaning disk).seen
            (λ file. IsOpened file it.1.items (place_of it.0))) }
        ensures in_place { IfOk result (λ it. AreInPlace it.1.items) }
        ensures ready { IfOk result (λ it. HasGate (below it.0) (place_of it.0)) }
        ensures file { IfOk result (λ it. BothKnown (λ old new. new ≡ opened_file old)
            (D.meaning disk).seen (below it.0).seen) }
        ensures stands { IfOk result (λ it. (file : List ℕ) → IsTrue (D.meaning disk).is_honest
            → (D.meaning disk).seen ≡ Some file
            → Stands (below it.0) (place_of it.0) (records_in it.1.items)) }
        ensures goes { IfOk result (λ it. GoesOn (D.meaning disk) (below it.0)) }
        ensures goes_err { IfErr result (λ it. GoesOn (D.meaning disk) (D.meaning it.0)) }
        ensures turns { IfOk result (λ it. KeepsFile (D.meaning disk) (below it.0)) }
        ensures turns_err { IfErr result (λ it.
            ((it.1 ≡ mounting.Disk) × IsNotSynced (D.meaning disk) (D.meaning it.0))
            ⊎ KeepsFile (D.meaning disk) (D.meaning it.0)) }
        ensures damaged { IfErr result (λ it. (place : ℕ) → it.1 ≡ mounting.Damaged place
            → IfKnown (D.meaning disk).seen (λ file. IsDamagedAt file place)) }
        ensures untouched { IfErr result (λ it. (it.1 ≡ mounting.Disk → ⊥)
            → (D.meaning it.0).seen ≡ (D.meaning disk).seen) }
        ensures cause { IfErr result (λ it. it.1 ≡ mounting.Disk
            → Rose (D.meaning disk).faults (D.meaning it.0).faults) }
        ensures unfailed { IfOk result (λ it. (below it.0).faults ≡ (D.meaning disk).faults) }
        ensures unfailed_err { IfErr result (λ it. (it.1 ≡ mounting.Disk → ⊥)
            → (D.meaning it.0).faults ≡ (D.meaning disk).faults) }
    {
        let mut disk = disk;
        if disk.sync().is_err() {
            return Err((disk, JournalFault::Disk));
        }
        match open_synced(alloc, &mut disk) {
            Ok((recs, at)) => {
                let limit = limit.min(u64::MAX - 1);
                Ok((Journal { disk, at, limit }, recs))
            }
            Err(fault) => Err((disk, fault)),
        }
    }
}
