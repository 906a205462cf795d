ghost use Rattle.std.specs.Prelude.{◌≡◌, ◌+◌, ◌-◌, ◌≤◌, ◌<◌, ◌^◌, ◌↔◌, IsTrue, IfOk, OnOk, OnErr};
ghost use Rattle.std.specs.Prelude.{IsErr, IsOk, IsOkAnd, Some, None, [], ◌∷◌, ◌++◌};
ghost use Rattle.std.specs.Prelude.{take, drop, length, vec_len, vec_capacity};
ghost use Rattle.disk_model.specs.Calls.{total, steps_of};
ghost use Rattle.disk_model.specs.DeviceCalls.{with_bytes, StartsWith};
ghost use Rattle.disk_model.specs.Images.{begun, run, all_fit};
ghost use Rattle.disk_model.specs.Memory.{meaning_of};
ghost use Rattle.disk_model.specs.MemoryLaws.{valid};

use crate::call::Call;
use crate::crash_image::image_after;
use crate::{Disk, Failed, NoMemory};
use prima_base::push_all_reserved;
use std::alloc::Global;

/// A disk in memory that keeps a list of all its writes and syncs. It is honest and tells its
/// content. After its start it takes no memory.
#[derive(Drop)]
pub struct MemDisk {
    first: Vec<u8>,
    bytes: Vec<u8>,
    written: Vec<u8>,
    calls: Vec<Call>,
    most: usize,
    room: usize,
    faults: u64,
    ghost total: { total calls.items ≡ length written.items },
    ghost fit: { IsTrue (all_fit (begun first.items) (steps_of calls.items written.items)) },
    ghost same: { bytes.items ≡
        (run (begun first.items) (steps_of calls.items written.items)).seen },
    ghost few: { vec_len calls ≤ most },
    ghost within: { vec_len written ≤ room },
    ghost calls_reserved: { most ≤ vec_capacity calls },
    ghost written_reserved: { room ≤ vec_capacity written },
    ghost bytes_reserved: { vec_len bytes + (room - vec_len written) ≤ vec_capacity bytes },
}

// Writes over what is there, and past the end. It takes no memory.
fn put_bytes(file: &mut Vec<u8>, at: usize, bytes: &[u8])
    requires begins { at ≤ vec_len file.old }
    requires room { vec_len file.old + length bytes.now ≤ vec_capacity file.old }
    ensures items { file.new.items ≡ with_bytes file.old.items at bytes.now }
    ensures len { vec_len file.new ≤ vec_len file.old + length bytes.now }
    ensures capacity { vec_capacity file.old ≤ vec_capacity file.new }
{
    let over = bytes.len().min(file.len() - at);
    push_all_reserved(file, &bytes[over..]);
    file[at..at + over].copy_from_slice(&bytes[..over]);
}

impl MemDisk {
    ghost use Rattle.disk_model.specs.CrashImages.{crash_image};
    ghost use Rattle.disk_model.specs.Disks.{memory_meaning, memory_first, memory_steps};
    ghost use Rattle.disk_model.specs.Disks.{memory_state, calls_left, room_left};
    ghost use Rattle.disk_model.specs.Images.{IsImage};

    /// A disk that holds these bytes, all of them synced. It takes here the memory for a list of
    /// `calls` writes and syncs, and for `room` bytes in all the writes.
    pub fn new(alloc: Global, bytes: Vec<u8>, calls: u64, room: u64) -> Result<MemDisk, NoMemory>
        ensures starts { IfOk result (λ d. StartsWith bytes.items (memory_meaning d)) }
        ensures first { IfOk result (λ d. memory_first d ≡ bytes.items) }
        ensures steps { IfOk result (λ d. memory_steps d ≡ []) }
        ensures calls { IfOk result (λ d. calls_left d ≡ calls) }
        ensures room { IfOk result (λ d. room_left d ≡ room) }
    {
        let most = calls as usize;
        let room = room as usize;
        let mut content = Vec::with_capacity(alloc, bytes.len())?;
        content.extend_from_slice(&bytes)?;
        content.reserve(room)?;
        Ok(MemDisk {
            first: bytes,
            bytes: content,
            written: Vec::with_capacity(alloc, room)?,
            calls: Vec::with_capacity(alloc, most)?,
            most,
            room,
            faults: 0,
        })
    }

    /// One of the files that a crash at this moment may have left, by its number. The moment is at
    /// most the present one. Pick 0 is what a read gave then, and pick 1 what the last sync had
    /// left. Every other pick has some of the growth since that sync, and spoils all bytes that a
    /// crash may have spoiled: those in a written range, and those past the length at that sync.
    pub fn crash_image(&self, moment: u64, pick: u64) -> Result<Vec<u8>, NoMemory>
        requires past { moment ≤ (memory_meaning self.now).moment }
        ensures exact { IfOk result
            (λ image. image.items ≡ crash_image (memory_state self.now moment) pick) }
        ensures image { IfOk result (λ image. IsImage (memory_state self.now moment) image.items) }
        ensures left { IfOk result
            (λ image. (memory_meaning self.now).left_since moment image.items) }
        ensures now { IfOk result (λ image. moment ≡ (memory_meaning self.now).moment
            → (memory_meaning self.now).may_leave image.items) }
    {
        let calls = &self.calls[..moment as usize];
        let room = self.bytes.len();
        let alloc = *self.first.allocator();
        image_after(alloc, &self.first, calls, &self.written, room, pick)
    }

    /// The present moment: how many writes and syncs are in the list. It takes no memory.
    pub fn moment(&self) -> u64
        ensures { result ≡ (memory_meaning self.now).moment }
    {
        self.calls.len() as u64
    }
}

impl Disk for MemDisk {
    ghost use Rattle.prima_io.specs.Causes.{Rose};
    ghost use Rattle.disk_model.specs.Meaning.{Only};
    ghost use Rattle.disk_model.specs.DeviceCalls.{Reads, Writes, Syncs};
    ghost use Rattle.disk_model.specs.Disks.{memory_meaning, memory_first, memory_steps};
    ghost use Rattle.disk_model.specs.Disks.{memory_bytes, calls_left, room_left};
    ghost use Rattle.disk_model.specs.Disks.{write_fails, sync_fails, SameMemory};

    ghost meaning = { λ d. meaning_of d.first.items (steps_of d.calls.items d.written.items)
        d.bytes.items d.faults };

    ghost valid = { λ d. valid d.first.items (steps_of d.calls.items d.written.items)
        d.bytes.items d.faults d.fit d.same };

    fn len(&mut self) -> Result<u64, Failed>
        ensures len { IsOkAnd result (λ n. n ≡ length (memory_bytes self.old)) }
        ensures below { IfOk result (λ n. n < 2 ^ 64 - 1) }
        ensures reads { Reads (memory_meaning self.old) (memory_meaning self.new) }
        ensures unchanged { SameMemory self.old self.new }
        ensures unfailed { (memory_meaning self.new).faults ≡ (memory_meaning self.old).faults }
    {
        Ok(self.bytes.len() as u64)
    }

    fn read_at(&mut self, at: u64, buf: &mut [u8]) -> Result<(), Failed>
        requires ends { at + length buf.old < 2 ^ 64 - 1 }
        requires within { at + length buf.old ≤ length (memory_bytes self.old) }
        ensures bytes { buf.new ≡ take (length buf.old) (drop at (memory_bytes self.old)) }
        ensures sure { IsOk result }
        ensures reads { Reads (memory_meaning self.old) (memory_meaning self.new) }
        ensures unchanged { SameMemory self.old self.new }
        ensures unfailed { (memory_meaning self.new).faults ≡ (memory_meaning self.old).faults }
    {
        let from = at as usize;
        let to = from + buf.len();
        buf.copy_from_slice(&self.bytes[from..to]);
        Ok(())
    }

    fn write_at(&mut self, at: u64, bytes: &[u8]) -> Result<(), Failed>
        requires ends { at + length bytes.now < 2 ^ 64 - 1 }
        requires begins { at ≤ length (memory_bytes self.old) }
        ensures written { OnOk result
            (memory_bytes self.new ≡ with_bytes (memory_bytes self.old) at bytes.now) }
        ensures listed { OnOk result (memory_steps self.new
            ≡ memory_steps self.old ++ Some (at, bytes.now) ∷ []) }
        ensures first { memory_first self.new ≡ memory_first self.old }
        ensures writes { Writes at (length bytes.now) (memory_meaning self.old)
            (memory_meaning self.new) }
        ensures cause { OnErr result
            (Rose (memory_meaning self.old).faults (memory_meaning self.new).faults) }
        ensures unfailed { OnOk result
            ((memory_meaning self.new).faults ≡ (memory_meaning self.old).faults) }
        ensures exact { IsErr result ↔ IsTrue (write_fails self.old (length bytes.now)) }
        ensures unchanged { OnErr result (SameMemory self.old self.new) }
        ensures calls { OnOk result (calls_left self.new + 1 ≡ calls_left self.old) }
        ensures room { OnOk result (room_left self.new + length bytes.now ≡ room_left self.old) }
    {
        if self.calls.len() == self.most || bytes.len() > self.room - self.written.len() {
            self.faults = self.faults.saturating_add(1);
            return Err(Failed);
        }
        put_bytes(&mut self.bytes, at as usize, bytes);
        push_all_reserved(&mut self.written, bytes);
        let call = Call::Write {
            at,
            len: bytes.len(),
        };
        self.calls.push_reserved(call);
        Ok(())
    }

    fn sync(&mut self) -> Result<(), Failed>
        ensures durable { OnOk result
            (Only (memory_bytes self.old) (memory_meaning self.new).may_leave) }
        ensures same { memory_bytes self.new ≡ memory_bytes self.old }
        ensures listed { OnOk result (memory_steps self.new ≡ memory_steps self.old ++ None ∷ []) }
        ensures first { memory_first self.new ≡ memory_first self.old }
        ensures syncs { Syncs (memory_meaning self.old) (memory_meaning self.new) }
        ensures cause { OnErr result
            (Rose (memory_meaning self.old).faults (memory_meaning self.new).faults) }
        ensures unfailed { OnOk result
            ((memory_meaning self.new).faults ≡ (memory_meaning self.old).faults) }
        ensures exact { IsErr result ↔ IsTrue (sync_fails self.old) }
        ensures unchanged { OnErr result (SameMemory self.old self.new) }
        ensures calls { OnOk result (calls_left self.new + 1 ≡ calls_left self.old) }
        ensures room { room_left self.new ≡ room_left self.old }
    {
        if self.calls.len() == self.most {
            self.faults = self.faults.saturating_add(1);
            return Err(Failed);
        }
        self.calls.push_reserved(Call::Sync);
        Ok(())
    }
}
