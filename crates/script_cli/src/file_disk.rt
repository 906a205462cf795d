ghost use Rattle.std.specs.Prelude.{◌^◌, ◌-◌, ◌<◌, IfSome};

use disk_model::Disk;
use prima_base::Failed;
use std::fs::{File, OpenOptions};
use std::io;
use std::os::unix::fs::FileExt;
use std::rt::Files;

/// A disk over a file of the system. Each error of the system counts as a fault. It tells no
/// content, and no contract knows what a file keeps: that it keeps what was synced is the system's
/// word.
#[derive(Drop)]
pub struct FileDisk {
    file: File,
    faults: u64,
}

impl FileDisk {
    ghost use Rattle.std.specs.Prelude.{◌≡◌, IfOk};
    ghost use Rattle.prima_io.specs.Causes.{HasCause};

    /// The file of this name in the current folder, made empty where it is missing. Where it is
    /// empty the folder is synced, so that the file is not lost after something has been written.
    /// The disk has not failed.
    pub fn open<R: Files<File = File>>(files: &R, name: &str) -> io::Result<FileDisk>
        ensures faults { IfOk result (λ disk. disk.faults ≡ 0) }
    {
        let opened = OpenOptions::new()
            .read(true)
            .write(true)
            .create(true)
            .open(files, name)?;
        // Where standard input or output is closed, the system gives its number to the file, and
        // replies would be written into it. A clone's number is above those of the three standard
        // ones.
        let file = opened.try_clone()?;
        drop(opened);
        if file.metadata()?.len() == 0 {
            File::open(files, ".")?.sync_all()?;
        }
        Ok(FileDisk { file, faults: 0 })
    }

    // What the system gave; else a fault.
    fn counted<T: Drop>(&mut self, answer: Option<T>) -> Result<T, Failed>
        ensures given { IfOk result (λ it. answer ≡ Some it) }
        ensures cause { HasCause self.old.faults self.new.faults result }
    {
        match answer {
            Some(it) => Ok(it),
            None => {
                self.faults = self.faults.saturating_add(1);
                Err(Failed)
            }
        }
    }
}

// The length of the file; none where it cannot be had, or is no length of a disk.
fn len_of(file: &File) -> Option<u64>
    ensures { IfSome result (λ n. n < 2 ^ 64 - 1) }
{
    let len = file.metadata().ok()?.len();
    if len < u64::MAX { Some(len) } else { None }
}

impl Disk for FileDisk {
    ghost use Rattle.disk_model.specs.Meaning.{with_faults};
    ghost use Rattle.disk_model.specs.Disks.{sure_meaning};
    ghost use Rattle.disk_model.specs.DiskLaws.{valid_with, valid_sure};

    ghost meaning = { λ disk. with_faults sure_meaning disk.faults };

    ghost valid = { λ disk. valid_with sure_meaning disk.faults valid_sure };

    fn len(&mut self) -> Result<u64, Failed> {
        let answer = len_of(&self.file);
        self.counted(answer)
    }

    fn read_at(&mut self, at: u64, buf: &mut [u8]) -> Result<(), Failed> {
        let answer = self.file.read_exact_at(buf, at);
        self.counted(answer.ok())
    }

    fn write_at(&mut self, at: u64, bytes: &[u8]) -> Result<(), Failed> {
        let answer = self.file.write_all_at(bytes, at);
        self.counted(answer.ok())
    }

    fn sync(&mut self) -> Result<(), Failed> {
        let answer = self.file.sync_data();
        self.counted(answer.ok())
    }
}
