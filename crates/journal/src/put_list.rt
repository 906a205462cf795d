ghost use Rattle.std.specs.Prelude.{◌≡◌, ◌+◌, ◌-◌, ◌^◌, ◌<◌, ◌++◌, ℕ, IsTrue, List, [], length};
ghost use Rattle.std.specs.Prelude.{min};
ghost use Rattle.std.specs.Prelude.{Err, IfOk, IfErr, OnOk, OnErr};
ghost use Rattle.prima_io.specs.Causes.{Rose};
ghost use Rattle.disk_model.specs.Meaning.{IfKnown};
ghost use Rattle.disk_model.specs.Moments.{GoesOn};
ghost use Rattle.journal.specs.Damage.{IsDamagedAt};
ghost use Rattle.journal.specs.Fields.{below, place_of, limit_of};
ghost use Rattle.journal.specs.PutLists.{records_of, fitting, PutsEach, LeavesPut};
ghost use Rattle.journal.specs.PutLists.{MountsAndPuts, EndsWith, IsAll};
ghost use Rattle.journal.specs.JournalFiles.{HasGate, Stands};
ghost use Rattle.journal.specs.declared.fault.JournalFault.TheVariants as mounting;
ghost use Rattle.journal.specs.declared.fault.PutsFault.TheVariants as puts;

use crate::fault::{JournalFault, PutFault, PutsFault};
use crate::journal::Journal;
use crate::sealed::Sealed;
use disk_model::Disk;
use std::alloc::Global;

/// Puts these records in their order, and answers how many. One that does not fit is left out, and
/// those after it are tried. The first failure of the disk ends the call: its count of faults rose,
/// the answer is how many had been put before, and the journal is to be mounted again. At each
/// moment a crash leaves the records before and a prefix of those that fit; after the call it
/// leaves all that were put, and at most the one more that failed. It takes no memory.
pub fn put_each<D: Disk>(journal: &mut Journal<D>, list: &[Sealed]) -> Result<usize, usize>
    requires ready { HasGate (below journal.old) (place_of journal.old) }
    ensures goes { GoesOn (below journal.old) (below journal.new) }
    ensures limit { limit_of journal.new ≡ limit_of journal.old }
    ensures all { IfOk result (λ n. n ≡ length
        (fitting (limit_of journal.old) (place_of journal.old) (records_of list.now))) }
    ensures some { IfErr result (λ n. n < length
        (fitting (limit_of journal.old) (place_of journal.old) (records_of list.now))) }
    ensures ready { OnOk result (HasGate (below journal.new) (place_of journal.new)) }
    ensures any_moment { PutsEach (below journal.old) (below journal.new) (place_of journal.old)
        (fitting (limit_of journal.old) (place_of journal.old) (records_of list.now)) }
    ensures stands { OnOk result ((opening : _) → IsTrue (below journal.old).is_honest
        → Stands (below journal.old) (place_of journal.old) opening
        → Stands (below journal.new) (place_of journal.new) (opening ++
        fitting (limit_of journal.old) (place_of journal.old) (records_of list.now))) }
    ensures put { IfOk result (λ n. LeavesPut (below journal.old) (below journal.new)
        (place_of journal.old)
        (fitting (limit_of journal.old) (place_of journal.old) (records_of list.now)) n n) }
    ensures stopped { IfErr result (λ n. LeavesPut (below journal.old) (below journal.new)
        (place_of journal.old)
        (fitting (limit_of journal.old) (place_of journal.old) (records_of list.now)) n (n + 1)) }
    ensures cause { OnErr result (Rose (below journal.old).faults (below journal.new).faults) }
    ensures unfailed { OnOk result ((below journal.new).faults ≡ (below journal.old).faults) }
{
    let mut put = 0;
    for sealed in list {
        match journal.put(sealed) {
            Ok(()) => put += 1,
            Err(PutFault::Full { .. }) => {}
            Err(PutFault::Disk) => return Err(put),
        }
    }
    Ok(put)
}

/// Mounts the journal that the file on a disk holds, and puts these records after its own as
/// `put_each` does. It answers how many were put, and hands the disk back as it then stands. Until
/// the first sync of the mount has succeeded a crash leaves what it might have left before, from
/// then on the opening records and a prefix of those that fit; after the call it leaves all that
/// were put, and at most the one more that failed.
pub fn mount_and_put<D: Disk>(
    alloc: Global,
    disk: D,
    limit: u64,
    list: &[Sealed],
) -> (Result<usize, PutsFault>, D)
    ensures goes { GoesOn (D.meaning disk) (D.meaning result.1) }
    ensures any_moment { MountsAndPuts (D.meaning disk) (D.meaning result.1)
        (min limit (2 ^ 64 - 2))
        (records_of list.now) }
    ensures all { IfOk result.0
        (λ n. IsAll (D.meaning disk) (min limit (2 ^ 64 - 2)) (records_of list.now) n) }
    ensures put { IfOk result.0 (λ n. EndsWith (D.meaning disk) (D.meaning result.1)
        (min limit (2 ^ 64 - 2)) (records_of list.now) n n) }
    ensures stopped { (n : ℕ) → result.0 ≡ Err (puts.Stopped n)
        → EndsWith (D.meaning disk) (D.meaning result.1) (min limit (2 ^ 64 - 2))
        (records_of list.now) n (n + 1) }
    ensures unmounted { (fault : _) → result.0 ≡ Err (puts.NotMounted fault)
        → MountsAndPuts (D.meaning disk) (D.meaning result.1) (min limit (2 ^ 64 - 2)) [] }
    ensures damaged { (place : ℕ) → result.0 ≡ Err (puts.NotMounted (mounting.Damaged place))
        → IfKnown (D.meaning disk).seen (λ file. IsDamagedAt file place) }
    ensures cause { IfErr result.0 (λ e. ((n : ℕ) → e ≡ puts.Stopped n
        → Rose (D.meaning disk).faults (D.meaning result.1).faults)
        × (e ≡ puts.NotMounted mounting.Disk
        → Rose (D.meaning disk).faults (D.meaning result.1).faults)) }
    ensures unfailed { OnOk result.0 ((D.meaning result.1).faults ≡ (D.meaning disk).faults) }
{
    match Journal::mount(alloc, disk, limit) {
        Err((disk, fault)) => (Err(PutsFault::NotMounted(fault)), disk),
        Ok((mut journal, _recs)) => {
            let answer = put_each(&mut journal, list);
            let disk = journal.into_disk();
            match answer {
                Ok(put) => (Ok(put), disk),
                Err(put) => (Err(PutsFault::Stopped(put)), disk),
            }
        }
    }
}
