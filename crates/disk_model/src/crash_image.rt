//! The files that a crash may leave, made anew from a list of writes and syncs.

ghost use Rattle.std.specs.Prelude.{◌≡◌, ◌+◌, ◌-◌, ◌%◌, ◌^◌, ◌≤◌, ◌<◌, ℕ, IsTrue, IfOk, OnOk};
ghost use Rattle.std.specs.Prelude.{◌++◌, ◌||◌, nat_le, replicate};
ghost use Rattle.std.specs.Prelude.{if◌then◌else◌, length, get_or, drop, vec_len};
ghost use Rattle.disk_model.specs.Calls.{total, steps_of, are_writes, has_written, LastIsSync};
ghost use Rattle.disk_model.specs.CrashImages.{is_within, crash_image};
ghost use Rattle.disk_model.specs.DeviceCalls.{with_bytes};
ghost use Rattle.disk_model.specs.Images.{begun, run, all_fit};

use crate::NoMemory;
use crate::call::Call;
use std::alloc::Global;

// Writes over what is there, and past the end.
fn write_over(file: &mut Vec<u8>, at: usize, bytes: &[u8]) -> Result<(), NoMemory>
    requires begins { at ≤ vec_len file.old }
    ensures items { OnOk result (file.new.items ≡ with_bytes file.old.items at bytes.now) }
{
    let over = bytes.len().min(file.len() - at);
    file.extend_from_slice(&bytes[over..])?;
    file[at..at + over].copy_from_slice(&bytes[..over]);
    Ok(())
}

// The file after these calls, and how many bytes they wrote: the first ones of `written`.
fn replay(file: &mut Vec<u8>, calls: &[Call], written: &[u8]) -> Result<usize, NoMemory>
    requires total { total calls.now ≤ length written.now }
    requires fit { IsTrue (all_fit (begun file.old.items) (steps_of calls.now written.now)) }
    ensures seen { OnOk result (file.new.items
        ≡ (run (begun file.old.items) (steps_of calls.now written.now)).seen) }
    ensures used { IfOk result (λ n. n ≡ total calls.now) }
{
    let mut used = 0;
    for call in calls {
        if let Call::Write { at, len } = *call {
            let next = used + len;
            write_over(file, at as usize, &written[used..next])?;
            used = next;
        }
    }
    Ok(used)
}

// How many of these calls there are up to the last sync: none where there is no sync.
fn synced_calls(calls: &[Call]) -> usize
    ensures len { result ≤ length calls.now }
    ensures since { IsTrue (are_writes (drop result calls.now)) }
    ensures sync { LastIsSync result calls.now }
{
    let mut synced = calls.len();
    while synced > 0 && matches!(calls[synced - 1], Call::Write { .. }) {
        synced -= 1;
    }
    synced
}

// Puts this byte into the range, as far as it lies in the file.
fn spoil(file: &mut [u8], at: usize, len: usize, byte: u8)
    ensures len { length file.new ≡ length file.old }
    ensures bytes { (i : ℕ) → i < length file.old → get_or file.new i 0
        ≡ (if is_within at len i then byte else get_or file.old i 0) }
{
    let from = at.min(file.len());
    let to = from + len.min(file.len() - from);
    file[from..to].fill(byte);
}

// Puts this byte into each range that these calls wrote, as far as it lies in the file.
fn spoil_written(file: &mut [u8], calls: &[Call], byte: u8)
    ensures len { length file.new ≡ length file.old }
    ensures bytes { (i : ℕ) → i < length file.old → get_or file.new i 0
        ≡ (if has_written calls.now i then byte else get_or file.old i 0) }
{
    for call in calls {
        if let Call::Write { at, len } = *call {
            spoil(file, at as usize, len, byte);
        }
    }
}

// A copy, with room for so many bytes in all.
fn copy_with_room(alloc: Global, file: &[u8], room: usize) -> Result<Vec<u8>, NoMemory>
    ensures { IfOk result (λ copy. copy.items ≡ file.now) }
{
    let mut copy = Vec::with_capacity(alloc, room)?;
    copy.extend_from_slice(file)?;
    Ok(copy)
}

// Puts this byte so many times after the others.
fn lengthen(file: &mut Vec<u8>, more: usize, byte: u8) -> Result<(), NoMemory>
    ensures { OnOk result (file.new.items ≡ file.old.items ++ replicate more byte) }
{
    for _ in 0..more {
        file.push(byte)?;
    }
    Ok(())
}

// The byte that an image of this number is spoiled with.
fn byte_of(pick: u64) -> u8
    ensures { result ≡ pick % 256 }
{
    (pick % 256) as u8
}

// How much of its growth since the last sync an image of this number has.
fn growth_of(synced: usize, seen: usize, pick: u64) -> usize
    requires grown { synced ≤ seen }
    requires few { seen < 2 ^ 64 - 1 }
    ensures { result ≡ pick % (seen - synced + 1) }
{
    let growth = (seen - synced) as u64;
    (pick % (growth + 1)) as usize
}

// The file of the last sync with all that a crash may have spoiled since, and some of the growth.
fn spoil_all(mut file: Vec<u8>, since: &[Call], seen: &[u8], pick: u64) -> Result<Vec<u8>, NoMemory>
    requires grown { length file.items ≤ length seen.now }
    ensures len { IfOk result (λ image. length image.items
        ≡ length file.items + pick % (length seen.now - length file.items + 1)) }
    ensures bytes { IfOk result (λ image. (i : ℕ) → i < length image.items
        → get_or image.items i 0 ≡ (if has_written since.now i || nat_le (length file.items) i
        then pick % 256 else get_or file.items i 0)) }
{
    let byte = byte_of(pick);
    let more = growth_of(file.len(), seen.len(), pick);
    spoil_written(&mut file, since, byte);
    lengthen(&mut file, more, byte)?;
    Ok(file)
}

// The crash image of this number, after these calls on a file that was synced.
pub(crate) fn image_after(
    alloc: Global,
    first: &[u8],
    calls: &[Call],
    written: &[u8],
    room: usize,
    pick: u64,
) -> Result<Vec<u8>, NoMemory>
    requires total { total calls.now ≤ length written.now }
    requires fit { IsTrue (all_fit (begun first.now) (steps_of calls.now written.now)) }
    ensures { IfOk result (λ image. image.items
        ≡ crash_image (run (begun first.now) (steps_of calls.now written.now)) pick) }
{
    let last = synced_calls(calls);
    let (synced, since) = calls.split_at(last);
    let mut left = copy_with_room(alloc, first, room)?;
    let used = replay(&mut left, synced, written)?;
    if pick == 1 {
        return Ok(left);
    }
    let (_before, rest) = written.split_at(used);
    let mut seen = copy_with_room(alloc, &left, room)?;
    let _used = replay(&mut seen, since, rest)?;
    if pick == 0 {
        return Ok(seen);
    }
    spoil_all(left, since, &seen, pick)
}
