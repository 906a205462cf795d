//! A case: a file, and what is done to it.

use crate::answer::{write_fault, write_places, write_put, write_records};
use crate::line::{Line, read_line};
use crate::list::{put_over_fuse, put_over_memory, put_over_nothing, seal_each};
use cases_text::{Groups, LinePlayer, play_lines, read_hex, write_hex};
use disk_model::{Disk, FuseDisk, MemDisk};
use journal::{COMMAND, Journal, Sealed};
use prima_base::NoMemory;
use std::alloc::{AllocError, Global};

// The limit of a journal that is told no other.
const LIMIT: u64 = 1 << 30;

// How many writes and syncs a disk may have.
const CALLS: u64 = 64;

// How many bytes the writes to a disk may have.
const ROOM: u64 = 1 << 16;

// Over how many disks that fail a mount and a put are tried.
const FUSES: u64 = 12;

// The file of the case that is being played, the limit of its journal, and the answers so far.
#[derive(Drop)]
struct Case {
    alloc: Global,
    file: Vec<u8>,
    limit: u64,
    answers: Vec<u8>,
}

// What a disk holds.
fn whole<D: Disk>(alloc: Global, disk: &mut D) -> Result<Vec<u8>, NoMemory> {
    let Ok(len) = disk.len() else {
        return Ok(Vec::new(alloc));
    };
    let mut bytes = vec![in alloc; 0u8; len as usize]?;
    if disk.read_at(0, &mut bytes).is_err() {
        bytes.clear();
    }
    Ok(bytes)
}

// What the file of these bytes holds, as one line.
fn summary(alloc: Global, file: &[u8], limit: u64) -> Result<Vec<u8>, NoMemory> {
    let bytes = Vec::from_slice(alloc, file)?;
    let disk = MemDisk::new(alloc, bytes, CALLS, ROOM)?;
    let mut text = Vec::new(alloc);
    match Journal::mount(alloc, disk, limit) {
        Ok((_journal, recs)) => write_places(&recs, &mut text)?,
        Err((_disk, fault)) => write_fault(fault, &mut text)?,
    }
    Ok(text)
}

// Which of a mount and a put answered over a disk that passes so many calls, and what.
fn over_fuse(
    alloc: Global,
    file: &[u8],
    limit: u64,
    passes: u64,
    sealed: &Sealed,
) -> Result<Vec<u8>, NoMemory> {
    let bytes = Vec::from_slice(alloc, file)?;
    let inner = MemDisk::new(alloc, bytes, CALLS, ROOM)?;
    let disk = FuseDisk::new(inner, passes);
    let mut text = Vec::new(alloc);
    match Journal::mount(alloc, disk, limit) {
        Err((_disk, fault)) => {
            text.extend_from_slice(b"mount ")?;
            write_fault(fault, &mut text)?;
        }
        Ok((mut journal, _recs)) => {
            text.extend_from_slice(b"put ")?;
            write_put(journal.put(sealed), &mut text)?;
        }
    }
    Ok(text)
}

impl Case {
    fn new(alloc: Global) -> Case {
        Case {
            alloc,
            file: Vec::new(alloc),
            limit: LIMIT,
            answers: Vec::new(alloc),
        }
    }

    // A disk that holds the file.
    fn disk(&self) -> Result<MemDisk, NoMemory> {
        let bytes = Vec::from_slice(self.alloc, &self.file)?;
        MemDisk::new(self.alloc, bytes, CALLS, ROOM)
    }

    fn begin(&mut self, name: &[u8]) -> Result<(), NoMemory> {
        self.file.clear();
        self.limit = LIMIT;
        self.answers.extend_from_slice(b"== ")?;
        self.answers.extend_from_slice(name)?;
        self.answers.push(b'\n')?;
        Ok(())
    }

    // Keeps the file that is left on a disk, and tells it.
    fn keep<D: Disk + Drop>(&mut self, mut disk: D) -> Result<(), NoMemory> {
        self.file = whole(self.alloc, &mut disk)?;
        self.answers.extend_from_slice(b"file ")?;
        write_hex(&self.file, &mut self.answers)?;
        self.answers.push(b'\n')?;
        Ok(())
    }

    fn open(&mut self) -> Result<(), NoMemory> {
        let disk = self.disk()?;
        match Journal::mount(self.alloc, disk, self.limit) {
            Ok((journal, recs)) => {
                write_records(&recs, &mut self.answers)?;
                self.keep(journal.into_disk())
            }
            Err((disk, fault)) => {
                write_fault(fault, &mut self.answers)?;
                self.answers.push(b'\n')?;
                self.keep(disk)
            }
        }
    }

    fn put(&mut self, hex: &[u8]) -> Result<(), NoMemory> {
        let mut payload = Vec::new(self.alloc);
        read_hex(hex, &mut payload)?;
        let sealed = Sealed::new(self.alloc, COMMAND, &payload)?;
        let disk = self.disk()?;
        self.answers.extend_from_slice(b"put ")?;
        match Journal::mount(self.alloc, disk, self.limit) {
            Ok((mut journal, _recs)) => {
                write_put(journal.put(&sealed), &mut self.answers)?;
                self.answers.push(b'\n')?;
                self.keep(journal.into_disk())
            }
            Err((disk, fault)) => {
                write_fault(fault, &mut self.answers)?;
                self.answers.push(b'\n')?;
                self.keep(disk)
            }
        }
    }

    fn cuts(&mut self) -> Result<(), NoMemory> {
        let mut groups = Groups::new();
        for len in 0..self.file.len() {
            let answer = summary(self.alloc, &self.file[..len], self.limit)?;
            groups.add(len as u64, answer, &mut self.answers)?;
        }
        let answer = summary(self.alloc, &self.file, self.limit)?;
        groups.add(self.file.len() as u64, answer, &mut self.answers)?;
        groups.end(&mut self.answers)
    }

    fn bytes(&mut self, byte: u8) -> Result<(), NoMemory> {
        let mut groups = Groups::new();
        let mut file = Vec::from_slice(self.alloc, &self.file)?;
        for place in 0..file.len() {
            let old = file[place];
            file[place] = byte;
            let answer = summary(self.alloc, &file, self.limit)?;
            groups.add(place as u64, answer, &mut self.answers)?;
            file[place] = old;
        }
        groups.end(&mut self.answers)
    }

    fn fuses(&mut self, hex: &[u8]) -> Result<(), NoMemory> {
        let mut payload = Vec::new(self.alloc);
        read_hex(hex, &mut payload)?;
        let sealed = Sealed::new(self.alloc, COMMAND, &payload)?;
        let mut groups = Groups::new();
        for passes in 0..FUSES {
            let answer = over_fuse(self.alloc, &self.file, self.limit, passes, &sealed)?;
            groups.add(passes, answer, &mut self.answers)?;
        }
        groups.end(&mut self.answers)
    }

    fn puts(&mut self, text: &[u8]) -> Result<(), NoMemory> {
        let list = seal_each(self.alloc, text)?;
        let mut disk = self.disk()?;
        put_over_memory(self.alloc, &mut disk, self.limit, &list, &mut self.answers)?;
        self.keep(disk)
    }

    fn steps(&mut self, text: &[u8]) -> Result<(), NoMemory> {
        let list = seal_each(self.alloc, text)?;
        let mut groups = Groups::new();
        for passes in 0..FUSES {
            let inner = self.disk()?;
            let answer = put_over_fuse(self.alloc, inner, passes, self.limit, &list)?;
            groups.add(passes, answer, &mut self.answers)?;
        }
        groups.end(&mut self.answers)
    }

    fn sure(&mut self, text: &[u8]) -> Result<(), NoMemory> {
        let list = seal_each(self.alloc, text)?;
        put_over_nothing(self.alloc, self.limit, &list, &mut self.answers)
    }
}

impl LinePlayer for Case {
    fn line(&mut self, line: &[u8]) -> Result<(), NoMemory> {
        match read_line(line) {
            Line::Name(name) => self.begin(name),
            Line::File(hex) => read_hex(hex, &mut self.file),
            Line::Limit(limit) => {
                self.limit = limit;
                Ok(())
            }
            Line::Open => self.open(),
            Line::Put(hex) => self.put(hex),
            Line::Cuts => self.cuts(),
            Line::Bytes(byte) => self.bytes(byte),
            Line::Fuses(hex) => self.fuses(hex),
            Line::Puts(list) => self.puts(list),
            Line::Steps(list) => self.steps(list),
            Line::Sure(list) => self.sure(list),
            Line::Note => Ok(()),
        }
    }
}

/// Plays the cases of a text of lines. The one error comes where memory runs out.
pub(crate) fn play(alloc: Global, cases: &[u8]) -> Result<Vec<u8>, AllocError> {
    let mut case = Case::new(alloc);
    play_lines(&mut case, cases)?;
    Ok(case.answers)
}
