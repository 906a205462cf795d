//! A borrowed disk is a disk: each call goes to the disk that it borrows.

use crate::{Disk, Failed};

impl<D: Disk> Disk for &mut D {
    ghost use Rattle.disk_model.specs.Meaning.{borrowed_as};
    ghost use Rattle.disk_model.specs.DiskLaws.{valid_borrowed};

    ghost meaning = { λ d. borrowed_as d.ghost_name (D.meaning d.now) };

    ghost valid = { λ d. valid_borrowed d.ghost_name (D.meaning d.now) (D.valid d.now) };

    fn len(&mut self) -> Result<u64, Failed> {
        Disk::len(&mut **self)
    }

    fn read_at(&mut self, at: u64, buf: &mut [u8]) -> Result<(), Failed> {
        Disk::read_at(&mut **self, at, buf)
    }

    fn write_at(&mut self, at: u64, bytes: &[u8]) -> Result<(), Failed> {
        Disk::write_at(&mut **self, at, bytes)
    }

    fn sync(&mut self) -> Result<(), Failed> {
        Disk::sync(&mut **self)
    }
}
