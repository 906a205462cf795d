ghost use Rattle.std.specs.Prelude.{◌≡◌, ◌-◌};

use crate::{Disk, Failed, MemDisk};

/// A disk that passes so many calls on, and fails every later one, which leaves the disk inside as
/// it was. It is honest and tells its content as that disk does.
#[derive(Drop)]
pub struct FuseDisk {
    inner: MemDisk,
    passes: u64,
    faults: u64,
}

impl FuseDisk {
    ghost use Rattle.disk_model.specs.Disks.{fuse_inner, fuse_passes, fuse_faults};

    /// A disk that passes `passes` calls on to `inner`.
    pub fn new(inner: MemDisk, passes: u64) -> FuseDisk
        ensures inner { fuse_inner result ≡ inner }
        ensures passes { fuse_passes result ≡ passes }
        ensures faults { fuse_faults result ≡ 0 }
    {
        FuseDisk {
            inner,
            passes,
            faults: 0,
        }
    }

    /// The disk inside.
    pub fn inner(&self) -> &MemDisk
        ensures { result.now ≡ fuse_inner self.now }
    {
        &self.inner
    }
}

impl Disk for FuseDisk {
    ghost use Rattle.std.specs.Prelude.{◌+◌, ◌^◌, ◌<◌, ◌≤◌, ◌↔◌, ◌||◌, nat_eq, IsTrue, IsErr, IfOk};
    ghost use Rattle.std.specs.Prelude.{OnOk, OnErr, length, take, drop, Some, None, [], ◌∷◌, ◌++◌};
    ghost use Rattle.prima_io.specs.Causes.{Rose};
    ghost use Rattle.disk_model.specs.Calls.{steps_of};
    ghost use Rattle.disk_model.specs.Meaning.{Only};
    ghost use Rattle.disk_model.specs.DeviceCalls.{Reads, Writes, Syncs, with_bytes};
    ghost use Rattle.disk_model.specs.Disks.{fuse_meaning, fuse_passes, fuse_inner, memory_meaning};
    ghost use Rattle.disk_model.specs.Disks.{memory_bytes, memory_first, memory_steps, SameMemory};
    ghost use Rattle.disk_model.specs.Disks.{write_fails, sync_fails};
    ghost use Rattle.disk_model.specs.DiskLaws.{valid_with};
    ghost use Rattle.disk_model.specs.MemoryLaws.{valid};

    ghost meaning = { λ f. fuse_meaning f };

    ghost valid = { λ f. valid_with (memory_meaning f.inner) f.faults
        (valid f.inner.first.items (steps_of f.inner.calls.items f.inner.written.items)
        f.inner.bytes.items f.inner.faults f.inner.fit f.inner.same) };

    fn len(&mut self) -> Result<u64, Failed>
        ensures len { IfOk result (λ n. n ≡ length (memory_bytes (fuse_inner self.old))) }
        ensures below { IfOk result (λ n. n < 2 ^ 64 - 1) }
        ensures reads { Reads (fuse_meaning self.old) (fuse_meaning self.new) }
        ensures cause { OnErr result
            (Rose (fuse_meaning self.old).faults (fuse_meaning self.new).faults) }
        ensures unfailed { OnOk result
            ((fuse_meaning self.new).faults ≡ (fuse_meaning self.old).faults) }
        ensures exact { IsErr result ↔ IsTrue (nat_eq (fuse_passes self.old) 0) }
        ensures blown { fuse_passes self.old ≡ 0 → fuse_inner self.new ≡ fuse_inner self.old }
        ensures passed { 0 < fuse_passes self.old
            → SameMemory (fuse_inner self.old) (fuse_inner self.new) }
        ensures passes { fuse_passes self.new ≡ fuse_passes self.old - 1 }
    {
        if self.passes == 0 {
            self.faults = self.faults.saturating_add(1);
            return Err(Failed);
        }
        self.passes -= 1;
        let answer = self.inner.len();
        if answer.is_err() {
            self.faults = self.faults.saturating_add(1);
        }
        answer
    }

    fn read_at(&mut self, at: u64, buf: &mut [u8]) -> Result<(), Failed>
        requires ends { at + length buf.old < 2 ^ 64 - 1 }
        requires within { at + length buf.old ≤ length (memory_bytes (fuse_inner self.old)) }
        ensures bytes { OnOk result (buf.new
            ≡ take (length buf.old) (drop at (memory_bytes (fuse_inner self.old)))) }
        ensures reads { Reads (fuse_meaning self.old) (fuse_meaning self.new) }
        ensures cause { OnErr result
            (Rose (fuse_meaning self.old).faults (fuse_meaning self.new).faults) }
        ensures unfailed { OnOk result
            ((fuse_meaning self.new).faults ≡ (fuse_meaning self.old).faults) }
        ensures exact { IsErr result ↔ IsTrue (nat_eq (fuse_passes self.old) 0) }
        ensures blown { fuse_passes self.old ≡ 0 → fuse_inner self.new ≡ fuse_inner self.old }
        ensures passed { 0 < fuse_passes self.old
            → SameMemory (fuse_inner self.old) (fuse_inner self.new) }
        ensures passes { fuse_passes self.new ≡ fuse_passes self.old - 1 }
    {
        if self.passes == 0 {
            self.faults = self.faults.saturating_add(1);
            return Err(Failed);
        }
        self.passes -= 1;
        let answer = self.inner.read_at(at, buf);
        if answer.is_err() {
            self.faults = self.faults.saturating_add(1);
        }
        answer
    }

    fn write_at(&mut self, at: u64, bytes: &[u8]) -> Result<(), Failed>
        requires ends { at + length bytes.now < 2 ^ 64 - 1 }
        requires begins { at ≤ length (memory_bytes (fuse_inner self.old)) }
        ensures written { OnOk result (memory_bytes (fuse_inner self.new)
            ≡ with_bytes (memory_bytes (fuse_inner self.old)) at bytes.now) }
        ensures writes { Writes at (length bytes.now) (fuse_meaning self.old)
            (fuse_meaning self.new) }
        ensures cause { OnErr result
            (Rose (fuse_meaning self.old).faults (fuse_meaning self.new).faults) }
        ensures unfailed { OnOk result
            ((fuse_meaning self.new).faults ≡ (fuse_meaning self.old).faults) }
        ensures exact { IsErr result
            ↔ IsTrue (nat_eq (fuse_passes self.old) 0
            || write_fails (fuse_inner self.old) (length bytes.now)) }
        ensures blown { fuse_passes self.old ≡ 0 → fuse_inner self.new ≡ fuse_inner self.old }
        ensures listed { OnOk result (memory_steps (fuse_inner self.new)
            ≡ memory_steps (fuse_inner self.old) ++ Some (at, bytes.now) ∷ []) }
        ensures first { memory_first (fuse_inner self.new) ≡ memory_first (fuse_inner self.old) }
        ensures unchanged { OnErr result (SameMemory (fuse_inner self.old) (fuse_inner self.new)) }
        ensures passes { fuse_passes self.new ≡ fuse_passes self.old - 1 }
    {
        if self.passes == 0 {
            self.faults = self.faults.saturating_add(1);
            return Err(Failed);
        }
        self.passes -= 1;
        let answer = self.inner.write_at(at, bytes);
        if answer.is_err() {
            self.faults = self.faults.saturating_add(1);
        }
        answer
    }

    fn sync(&mut self) -> Result<(), Failed>
        ensures durable { OnOk result (Only (memory_bytes (fuse_inner self.old))
            (fuse_meaning self.new).may_leave) }
        ensures same { memory_bytes (fuse_inner self.new) ≡ memory_bytes (fuse_inner self.old) }
        ensures syncs { Syncs (fuse_meaning self.old) (fuse_meaning self.new) }
        ensures cause { OnErr result
            (Rose (fuse_meaning self.old).faults (fuse_meaning self.new).faults) }
        ensures unfailed { OnOk result
            ((fuse_meaning self.new).faults ≡ (fuse_meaning self.old).faults) }
        ensures exact { IsErr result
            ↔ IsTrue (nat_eq (fuse_passes self.old) 0 || sync_fails (fuse_inner self.old)) }
        ensures blown { fuse_passes self.old ≡ 0 → fuse_inner self.new ≡ fuse_inner self.old }
        ensures listed { OnOk result (memory_steps (fuse_inner self.new)
            ≡ memory_steps (fuse_inner self.old) ++ None ∷ []) }
        ensures first { memory_first (fuse_inner self.new) ≡ memory_first (fuse_inner self.old) }
        ensures unchanged { OnErr result (SameMemory (fuse_inner self.old) (fuse_inner self.new)) }
        ensures passes { fuse_passes self.new ≡ fuse_passes self.old - 1 }
    {
        if self.passes == 0 {
            self.faults = self.faults.saturating_add(1);
            return Err(Failed);
        }
        self.passes -= 1;
        let answer = self.inner.sync();
        if answer.is_err() {
            self.faults = self.faults.saturating_add(1);
        }
        answer
    }
}
