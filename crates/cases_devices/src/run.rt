//! One run of a script over given devices, and a later one over the file that it leaves.

ghost use Rattle.std.specs.Prelude.{◌≡◌, ◌<◌, ◌≤◌};
ghost use Rattle.disk_model.specs.Disks.{memory_meaning};

use crate::answer::{write_end, write_left};
use crate::crash::{acknowledged, write_images};
use cases_text::{Groups, write_number};
use disk_model::{Disk, FuseDisk, MemDisk};
use prima_base::{NoMemory, Steps};
use prima_base_counter::fresh_steps;
use prima_io::{MemSink, MemSource};
use rewrite_rules::{Rule, RuleBook, push_every_rule};
use script_cli::{Archive, MountFault, Opened, Status, Word, run};
use std::alloc::Global;
use std::marker::Brand;
use std::sync::ledger::{Blank, Ledger};

// How many bytes the replies of a run may have.
const ROOM: usize = 1 << 12;

// How many bytes a source hands out at once that is told no other number.
const CHUNK: usize = 7;

// How many writes and syncs a disk has room for that fails at none of them.
const DISK_CALLS: u64 = 1 << 14;

// How many bytes these may have.
const DISK_ROOM: u64 = 1 << 23;

/// What is run: the words, the file that the disk has, and the script.
#[derive(Clone, Copy)]
pub(crate) struct Runs<'a> {
    pub(crate) words: &'a [Word],
    pub(crate) file: &'a [u8],
    pub(crate) script: &'a [u8],
}

/// The devices of a run, and how they fail: the numbers of the failing calls of source and sink,
/// counted from 0, the sink's room, and how many writes and syncs the disk has before it fails.
#[derive(Drop)]
pub(crate) struct Devices {
    pub(crate) chunk: usize,
    pub(crate) failing_takes: Vec<u64>,
    pub(crate) failing_puts: Vec<u64>,
    pub(crate) room: usize,
    pub(crate) disk_calls: u64,
}

impl Devices {
    /// Devices that do not fail.
    pub(crate) fn sure(alloc: Global) -> Devices {
        Devices {
            chunk: CHUNK,
            failing_takes: Vec::new(alloc),
            failing_puts: Vec::new(alloc),
            room: ROOM,
            disk_calls: DISK_CALLS,
        }
    }
}

/// How a run ended, and its replies.
#[derive(Drop)]
pub(crate) struct Ended {
    pub(crate) code: u8,
    pub(crate) replies: Vec<u8>,
}

/// How a run ended, and its line.
#[derive(Drop)]
pub(crate) struct Played {
    pub(crate) code: u8,
    pub(crate) text: Vec<u8>,
}

// Runs a script over a disk, with these rules.
fn run_by<D: Disk, R: Rule>(
    alloc: Global,
    rules: Vec<R>,
    runs: Runs<'_>,
    devices: Devices,
    disk: &mut D,
) -> Result<Ended, NoMemory> {
    let Ok(book) = RuleBook::new(alloc, rules) else {
        return Err(NoMemory);
    };
    let bytes = Vec::from_slice(alloc, runs.script)?;
    let mut source = MemSource::new(bytes, devices.chunk.max(1), devices.failing_takes);
    let mut sink = MemSink::new(alloc, devices.room, devices.failing_puts)?;
    let status: Status = run(alloc, runs.words, &book, &mut source, &mut sink, disk);
    Ok(Ended {
        code: status.code(),
        replies: Vec::from_slice(alloc, sink.written())?,
    })
}

// Runs a script over a disk, with one rule for each kind of operator.
fn run_over<D: Disk>(
    alloc: Global,
    runs: Runs<'_>,
    devices: Devices,
    disk: &mut D,
) -> Result<Ended, NoMemory> {
    let mut rules: Vec<Box<dyn Rule>> = Vec::new(alloc);
    push_every_rule!(alloc, rules);
    run_by(alloc, rules, runs, devices, disk)
}

// What a disk holds.
fn whole(alloc: Global, disk: &mut MemDisk) -> Result<Vec<u8>, NoMemory> {
    let Ok(len) = disk.len() else {
        return Ok(Vec::new(alloc));
    };
    let mut bytes = vec![in alloc; 0u8; len as usize]?;
    if disk.read_at(0, &mut bytes).is_err() {
        bytes.clear();
    }
    Ok(bytes)
}

/// Runs a script over its file and these devices, and answers the file that is left beside.
pub(crate) fn play_once(
    alloc: Global,
    runs: Runs<'_>,
    devices: Devices,
) -> Result<(Ended, Vec<u8>), NoMemory> {
    let bytes = Vec::from_slice(alloc, runs.file)?;
    let mut disk = MemDisk::new(alloc, bytes, devices.disk_calls, DISK_ROOM)?;
    let ended = run_over(alloc, runs, devices, &mut disk)?;
    let file = whole(alloc, &mut disk)?;
    Ok((ended, file))
}

// What a mount finds, with a counter of its own.
fn mount_counted<L: Ledger>(
    alloc: Global,
    disk: MemDisk,
    blank: Blank,
) -> Result<Opened, MountFault>
    requires name { blank.name ≡ L.name }
    requires parts { blank.parts ≡ L.parts }
    requires some { 0 < blank.parts }
{
    let mut steps: Steps<L> = fresh_steps(blank);
    match Archive::mount(alloc, disk, u64::MAX, &mut steps) {
        Ok((_archive, opened)) => Ok(opened),
        Err((_disk, fault)) => Err(fault),
    }
}

/// What a mount of the archive of a file finds.
pub(crate) fn open(alloc: Global, file: &[u8]) -> Result<Result<Opened, MountFault>, NoMemory> {
    let bytes = Vec::from_slice(alloc, file)?;
    let disk = MemDisk::new(alloc, bytes, DISK_CALLS, DISK_ROOM)?;
    Ok(mount_counted::<Brand>(alloc, disk, Blank::new(1)))
}

/// Runs a script over its file and these devices, and then a later one over the file that is left.
pub(crate) fn play_twice(
    alloc: Global,
    runs: Runs<'_>,
    later: &[u8],
    devices: Devices,
) -> Result<Played, NoMemory> {
    let (ended, file) = play_once(alloc, runs, devices)?;
    let mut text = Vec::new(alloc);
    write_end(ended.code, &ended.replies, &mut text)?;
    let again = Runs {
        words: runs.words,
        file: &file,
        script: later,
    };
    let (answered, _left) = play_once(alloc, again, Devices::sure(alloc))?;
    write_left(&file, &answered.replies, &mut text)?;
    Ok(Played {
        code: ended.code,
        text,
    })
}

/// Runs a script over its file on a disk that passes so many calls, and tells how many writes and
/// syncs passed.
pub(crate) fn play_fuse(alloc: Global, runs: Runs<'_>, passes: u64) -> Result<Played, NoMemory> {
    let bytes = Vec::from_slice(alloc, runs.file)?;
    let inner = MemDisk::new(alloc, bytes, DISK_CALLS, DISK_ROOM)?;
    let mut disk = FuseDisk::new(inner, passes);
    let ended = run_over(alloc, runs, Devices::sure(alloc), &mut disk)?;
    let mut text = Vec::new(alloc);
    write_end(ended.code, &ended.replies, &mut text)?;
    text.extend_from_slice(b"; writes and syncs ")?;
    write_number(disk.inner().moment(), &mut text)?;
    Ok(Played {
        code: ended.code,
        text,
    })
}

/// Runs a script over its file on a disk that passes so many calls, and tells how many commands
/// were acknowledged, and how many the crash images of the last moment open with. The file `whole`
/// is what a run leaves over a disk that does not fail.
pub(crate) fn play_crashes(
    alloc: Global,
    runs: Runs<'_>,
    whole: &[u8],
    passes: u64,
) -> Result<Played, NoMemory> {
    let bytes = Vec::from_slice(alloc, runs.file)?;
    let inner = MemDisk::new(alloc, bytes, DISK_CALLS, DISK_ROOM)?;
    let mut disk = FuseDisk::new(inner, passes);
    let ended = run_over(alloc, runs, Devices::sure(alloc), &mut disk)?;
    let inner = disk.inner();
    let mut text = Vec::new(alloc);
    text.extend_from_slice(b"status ")?;
    write_number(u64::from(ended.code), &mut text)?;
    text.extend_from_slice(b", acknowledged ")?;
    write_number(acknowledged(&ended.replies), &mut text)?;
    text.extend_from_slice(b": ")?;
    write_images(alloc, inner, inner.moment(), whole, &mut text)?;
    Ok(Played {
        code: ended.code,
        text,
    })
}

/// Runs a script over its file, and answers the crash image of the last moment under the pick 0:
/// what a read gives there.
pub(crate) fn last_image(alloc: Global, runs: Runs<'_>) -> Result<Vec<u8>, NoMemory> {
    let bytes = Vec::from_slice(alloc, runs.file)?;
    let mut disk = MemDisk::new(alloc, bytes, DISK_CALLS, DISK_ROOM)?;
    run_over(alloc, runs, Devices::sure(alloc), &mut disk)?;
    let last = disk.moment();
    disk.crash_image(last, 0)
}

// Adds what the crash images of a moment open with.
fn add_moment(
    alloc: Global,
    disk: &MemDisk,
    moment: u64,
    whole: &[u8],
    groups: &mut Groups,
    answers: &mut Vec<u8>,
) -> Result<(), NoMemory>
    requires past { moment ≤ (memory_meaning disk.now).moment }
{
    let mut text = Vec::new(alloc);
    write_images(alloc, disk, moment, whole, &mut text)?;
    groups.add(moment, text, answers)
}

/// Runs a script over its file, and tells how many commands the crash images of each moment of the
/// run open with.
pub(crate) fn play_moments(
    alloc: Global,
    runs: Runs<'_>,
    answers: &mut Vec<u8>,
) -> Result<(), NoMemory> {
    let bytes = Vec::from_slice(alloc, runs.file)?;
    let mut disk = MemDisk::new(alloc, bytes, DISK_CALLS, DISK_ROOM)?;
    let ended = run_over(alloc, runs, Devices::sure(alloc), &mut disk)?;
    write_end(ended.code, &ended.replies, answers)?;
    answers.push(b'\n')?;
    let file = whole(alloc, &mut disk)?;
    let mut groups = Groups::new();
    let last = disk.moment();
    for moment in 0..last {
        add_moment(alloc, &disk, moment, &file, &mut groups, answers)?;
    }
    add_moment(alloc, &disk, last, &file, &mut groups, answers)?;
    groups.end(answers)
}
