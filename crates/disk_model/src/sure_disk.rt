ghost use Rattle.std.specs.Prelude.{◌≡◌, ◌+◌, ◌-◌, ◌^◌, ◌<◌, ◌≤◌};

use crate::{Disk, Failed};

/// A disk that never fails and keeps nothing but its length, the greatest end of a write. It reads
/// zeros, tells no content and is not honest. It takes no memory.
#[derive(Drop)]
pub struct SureDisk {
    len: u64,
    ghost short: { len < 2 ^ 64 - 1 },
}

impl SureDisk {
    ghost use Rattle.disk_model.specs.Disks.{sure_len};

    /// An empty disk.
    pub fn new() -> SureDisk
        ensures { sure_len result ≡ 0 }
    {
        SureDisk { len: 0 }
    }
}

impl Disk for SureDisk {
    ghost use Rattle.std.specs.Prelude.{IsOk, IsOkAnd, IfOk, OnErr, OnOk, max, length, replicate};
    ghost use Rattle.prima_io.specs.Causes.{Rose};
    ghost use Rattle.disk_model.specs.DeviceCalls.{Reads, Writes, Syncs};
    ghost use Rattle.disk_model.specs.Disks.{sure_meaning, sure_len};
    ghost use Rattle.disk_model.specs.DiskLaws.{valid_sure};

    ghost meaning = { λ _. sure_meaning };

    ghost valid = { λ _. valid_sure };

    fn len(&mut self) -> Result<u64, Failed>
        ensures len { IsOkAnd result (λ n. n ≡ sure_len self.old) }
        ensures below { IfOk result (λ n. n < 2 ^ 64 - 1) }
        ensures reads { Reads sure_meaning sure_meaning }
        ensures same { sure_len self.new ≡ sure_len self.old }
    {
        Ok(self.len)
    }

    fn read_at(&mut self, at: u64, buf: &mut [u8]) -> Result<(), Failed>
        requires ends { at + length buf.old < 2 ^ 64 - 1 }
        ensures zeros { buf.new ≡ replicate (length buf.old) 0 }
        ensures sure { IsOk result }
        ensures reads { Reads sure_meaning sure_meaning }
        ensures same { sure_len self.new ≡ sure_len self.old }
    {
        buf.fill(0);
        Ok(())
    }

    fn write_at(&mut self, at: u64, bytes: &[u8]) -> Result<(), Failed>
        requires ends { at + length bytes.now < 2 ^ 64 - 1 }
        ensures sure { IsOk result }
        ensures writes { Writes at (length bytes.now) sure_meaning sure_meaning }
        ensures len { sure_len self.new ≡ max (sure_len self.old) (at + length bytes.now) }
    {
        self.len = self.len.max(at + bytes.len() as u64);
        Ok(())
    }

    fn sync(&mut self) -> Result<(), Failed>
        ensures sure { IsOk result }
        ensures syncs { Syncs sure_meaning sure_meaning }
        ensures same { sure_len self.new ≡ sure_len self.old }
    {
        Ok(())
    }
}
