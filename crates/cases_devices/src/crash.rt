//! What the crash images of a run open with.

ghost use Rattle.std.specs.Prelude.{◌≤◌};
ghost use Rattle.disk_model.specs.Disks.{memory_meaning};

use crate::run::open;
use cases_text::write_number;
use disk_model::MemDisk;
use journal::{Journal, Rec};
use prima_base::NoMemory;
use script_cli::{MountFault, Opened};
use std::alloc::Global;

// How many crash images of a moment are opened.
const PICKS: u64 = 16;

// How many writes and syncs a mount may make.
const DISK_CALLS: u64 = 1 << 3;

// How many bytes these may have.
const DISK_ROOM: u64 = 1 << 6;

/// How many whole `ok` lines of commands stand in these replies.
pub(crate) fn acknowledged(replies: &[u8]) -> u64 {
    let mut count: u64 = 0;
    for line in replies.split(|byte| *byte == b'\n') {
        if let [b'o', b'k', b' ', b'0'..=b'9', ..] = line {
            count = count.wrapping_add(1);
        }
    }
    count
}

// The records of a file; none where it is no journal.
fn records(alloc: Global, file: &[u8]) -> Result<Vec<Rec>, NoMemory> {
    let bytes = Vec::from_slice(alloc, file)?;
    let disk = MemDisk::new(alloc, bytes, DISK_CALLS, DISK_ROOM)?;
    match Journal::mount(alloc, disk, u64::MAX) {
        Ok((_journal, records)) => Ok(records),
        Err((_disk, _fault)) => Ok(Vec::new(alloc)),
    }
}

// The records are the first ones of those of the whole run.
fn are_first(records: &[Rec], whole: &[Rec]) -> bool {
    records.len() <= whole.len()
        && records.iter().zip(whole.iter()).all(|(record, other)| {
            record.kind == other.kind && record.payload.as_slice() == other.payload.as_slice()
        })
}

// Writes how many commands the images open with.
fn write_counts(least: u64, most: u64, text: &mut Vec<u8>) -> Result<(), NoMemory> {
    text.extend_from_slice(b"commands ")?;
    write_number(least, text)?;
    if least != most {
        text.extend_from_slice(b" or ")?;
        write_number(most, text)?;
    }
    Ok(())
}

// How many commands an image opens with; none where it is damaged or has records of its own.
fn commands_in(alloc: Global, image: &[u8], whole: &[Rec]) -> Result<Option<u64>, NoMemory> {
    let opened: Result<Opened, MountFault> = open(alloc, image)?;
    let Ok(opened) = opened else {
        return Ok(None);
    };
    let records = records(alloc, image)?;
    Ok(if are_first(&records, whole) {
        Some(opened.commands)
    } else {
        None
    })
}

/// Writes how many commands the crash images of a moment open with: the least and the greatest
/// number. An image that is damaged, or whose records are not the first ones of the file `whole`,
/// is told by its pick.
pub(crate) fn write_images(
    alloc: Global,
    disk: &MemDisk,
    moment: u64,
    whole: &[u8],
    text: &mut Vec<u8>,
) -> Result<(), NoMemory>
    requires past { moment ≤ (memory_meaning disk.now).moment }
{
    let whole = records(alloc, whole)?;
    let mut least = u64::MAX;
    let mut most = 0;
    for pick in 0..PICKS {
        let image = disk.crash_image(moment, pick)?;
        match commands_in(alloc, &image, &whole)? {
            Some(commands) => {
                least = least.min(commands);
                most = most.max(commands);
            }
            None => {
                text.extend_from_slice(b"wrong at pick ")?;
                write_number(pick, text)?;
                text.extend_from_slice(b"; ")?;
            }
        }
    }
    write_counts(least, most, text)
}
