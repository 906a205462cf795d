ghost use Rattle.std.specs.Prelude.{◌≡◌, ◌+◌, ◌-◌, ◌^◌, ◌<◌, ◌≤◌, IsTrue, length, take, drop};
ghost use Rattle.std.specs.Prelude.{IfOk, OnOk, OnErr};
ghost use Rattle.prima_io.specs.Causes.{Rose};
ghost use Rattle.disk_model.specs.Meaning.{Meaning, IsValid, IfKnown, BothKnown, Only};
ghost use Rattle.disk_model.specs.DeviceCalls.{Reads, Writes, Syncs, with_bytes};

use prima_base::Failed;

/// A file on a disk that may stop at any moment. Places and lengths are in bytes.
///
/// Every call keeps the disk as honest as it was, and joins its own moments to the earlier ones:
/// what a crash may have left since some moment is what it may have left before the call, or since
/// the call's start. A call answers `Failed` only where the disk's count of faults rose in this
/// call, and an `Ok` leaves the count as it was.
pub trait Disk {
    // What a read gives, what a crash may leave, and when.
    ghost meaning: { Self → Meaning };

    /// The length of the file, which is below `u64::MAX`.
    fn len(&mut self) -> Result<u64, Failed>
        ensures len { IfOk result (λ n. IfKnown (meaning self.old).seen (λ file. n ≡ length file)) }
        ensures below { IfOk result (λ n. n < 2 ^ 64 - 1) }
        ensures reads { Reads (meaning self.old) (meaning self.new) }
        ensures cause { OnErr result (Rose (meaning self.old).faults (meaning self.new).faults) }
        ensures unfailed { OnOk result ((meaning self.new).faults ≡ (meaning self.old).faults) };

    /// Fills `buf` with the bytes from `at` on. Where the disk tells its content the range lies
    /// within the file; one that tells none counts a fault for a range that it cannot serve.
    fn read_at(&mut self, at: u64, buf: &mut [u8]) -> Result<(), Failed>
        requires ends { at + length buf.old < 2 ^ 64 - 1 }
        requires within { IfKnown (meaning self.old).seen
            (λ file. at + length buf.old ≤ length file) }
        ensures bytes { OnOk result (IfKnown (meaning self.old).seen
            (λ file. buf.new ≡ take (length buf.old) (drop at file))) }
        ensures reads { Reads (meaning self.old) (meaning self.new) }
        ensures cause { OnErr result (Rose (meaning self.old).faults (meaning self.new).faults) }
        ensures unfailed { OnOk result ((meaning self.new).faults ≡ (meaning self.old).faults) };

    /// Writes over what is there, and past the end; it begins at or before the end. Until a sync
    /// succeeds a crash may leave any bytes in the range. A write that fails leaves its range as a
    /// crash may leave it.
    fn write_at(&mut self, at: u64, bytes: &[u8]) -> Result<(), Failed>
        requires ends { at + length bytes.now < 2 ^ 64 - 1 }
        requires begins { IfKnown (meaning self.old).seen (λ file. at ≤ length file) }
        ensures written { OnOk result (BothKnown (λ old new. new ≡ with_bytes old at bytes.now)
            (meaning self.old).seen (meaning self.new).seen) }
        ensures writes { Writes at (length bytes.now) (meaning self.old) (meaning self.new) }
        ensures cause { OnErr result (Rose (meaning self.old).faults (meaning self.new).faults) }
        ensures unfailed { OnOk result ((meaning self.new).faults ≡ (meaning self.old).faults) };

    /// After it a crash leaves what a read gives, which stays as it was. A sync that fails leaves
    /// all ranges written since the last sync that succeeded as a crash may leave them.
    fn sync(&mut self) -> Result<(), Failed>
        ensures durable { OnOk result (IsTrue (meaning self.old).is_honest
            → IfKnown (meaning self.old).seen (λ file. Only file (meaning self.new).may_leave)) }
        ensures same { OnOk result ((meaning self.new).seen ≡ (meaning self.old).seen) }
        ensures syncs { Syncs (meaning self.old) (meaning self.new) }
        ensures cause { OnErr result (Rose (meaning self.old).faults (meaning self.new).faults) }
        ensures unfailed { OnOk result ((meaning self.new).faults ≡ (meaning self.old).faults) };

    // A crash now is one at this moment, and what a read gives is one of the files it may leave.
    ghost valid: { (disk : Self) → IsValid (meaning disk) };
}
