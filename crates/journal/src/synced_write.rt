ghost use Rattle.std.specs.Prelude.{◌+◌, ◌-◌, ◌^◌, ◌<◌, ◌≤◌, length, OnOk, OnErr};
ghost use Rattle.prima_io.specs.Causes.{Rose};
ghost use Rattle.disk_model.specs.Meaning.{IfKnown};
ghost use Rattle.journal.specs.SyncedWrites.{Through, Landed};

use disk_model::{Disk, Failed};

// Writes, and syncs what it wrote. At each moment a crash leaves what it might have left before,
// with any bytes in the range.
pub(crate) fn write_and_sync<D: Disk>(disk: &mut D, at: u64, bytes: &[u8]) -> Result<(), Failed>
    requires ends { at + length bytes.now < 2 ^ 64 - 1 }
    requires begins { IfKnown (D.meaning disk.old).seen (λ file. at ≤ length file) }
    ensures through { Through at (length bytes.now) (D.meaning disk.old) (D.meaning disk.new) }
    ensures landed { OnOk result (Landed at bytes.now (D.meaning disk.old) (D.meaning disk.new)) }
    ensures cause { OnErr result (Rose (D.meaning disk.old).faults (D.meaning disk.new).faults) }
{
    disk.write_at(at, bytes)?;
    disk.sync()?;
    Ok(())
}
