//! Lists of records that are put one after the other, over each kind of disk.

use crate::answer::{write_fault, write_puts};
use cases_text::{read_hex, write_number};
use disk_model::{Disk, FuseDisk, MemDisk, SureDisk};
use journal::{COMMAND, Journal, Sealed, mount_and_put};
use prima_base::NoMemory;
use std::alloc::Global;

// A command of the payload that a text spells.
fn seal(alloc: Global, hex: &[u8]) -> Result<Sealed, NoMemory> {
    let mut payload = Vec::new(alloc);
    read_hex(hex, &mut payload)?;
    Sealed::new(alloc, COMMAND, &payload)
}

/// The commands whose payloads a text spells, with commas between them.
pub(crate) fn seal_each(alloc: Global, text: &[u8]) -> Result<Vec<Sealed>, NoMemory> {
    let mut list = Vec::new(alloc);
    let mut begin = 0;
    for at in 0..text.len() {
        if text[at] == b',' {
            list.push(seal(alloc, &text[begin..at])?)?;
            begin = at + 1;
        }
    }
    list.push(seal(alloc, &text[begin..])?)?;
    Ok(list)
}

/// Puts a list over a disk in memory, which stays the caller's, and tells the answer and the moment
/// that the disk then has.
pub(crate) fn put_over_memory(
    alloc: Global,
    disk: &mut MemDisk,
    limit: u64,
    list: &[Sealed],
    text: &mut Vec<u8>,
) -> Result<(), NoMemory> {
    let (answer, _borrowed) = mount_and_put(alloc, &mut *disk, limit, list);
    write_puts(answer, text)?;
    text.extend_from_slice(b" after ")?;
    write_number(disk.moment(), text)?;
    text.push(b'\n')?;
    Ok(())
}

/// Puts a list over a disk that passes so many calls on, and tells the answer and the moment of the
/// disk inside.
pub(crate) fn put_over_fuse(
    alloc: Global,
    inner: MemDisk,
    passes: u64,
    limit: u64,
    list: &[Sealed],
) -> Result<Vec<u8>, NoMemory> {
    let (answer, disk) = mount_and_put(alloc, FuseDisk::new(inner, passes), limit, list);
    let mut text = Vec::new(alloc);
    write_puts(answer, &mut text)?;
    text.extend_from_slice(b" after ")?;
    write_number(disk.inner().moment(), &mut text)?;
    Ok(text)
}

/// Puts a list over a disk that keeps nothing but its length, and tells the answer, that length,
/// and what mounting it again answers.
pub(crate) fn put_over_nothing(
    alloc: Global,
    limit: u64,
    list: &[Sealed],
    text: &mut Vec<u8>,
) -> Result<(), NoMemory> {
    let (answer, mut disk) = mount_and_put(alloc, SureDisk::new(), limit, list);
    write_puts(answer, text)?;
    text.extend_from_slice(b", of length ")?;
    if let Ok(len) = disk.len() {
        write_number(len, text)?;
    }
    text.extend_from_slice(b", then ")?;
    match Journal::mount(alloc, disk, limit) {
        Ok(_) => text.extend_from_slice(b"opened")?,
        Err((_disk, fault)) => write_fault(fault, text)?,
    }
    text.push(b'\n')?;
    Ok(())
}
