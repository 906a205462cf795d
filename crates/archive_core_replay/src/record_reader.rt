//! Records read as what they stand for.

ghost use Rattle.std.specs.Prelude.{◌≡◌, ◌+◌, ◌-◌, ◌≤◌, ◌^◌, ◌<◌, ◌++◌, ◌∷◌, [], ℕ, List, length};
ghost use Rattle.std.specs.Prelude.{get_or, IfOk, OnOk, Err};
ghost use Rattle.smo_ops_types.specs.Commands.{command_of, PlainCommand};
ghost use Rattle.smo_ops_spec.specs.Past.{Past};
ghost use Rattle.command_codec_spec.specs.Found.{Encodes};
ghost use Rattle.store_image_spec.specs.Images.{Image, IsImage};
ghost use Rattle.store_image_spec.specs.Encoding.{image_bytes};
ghost use Rattle.store_image_spec.specs.ShownPast.{image_past};
ghost use Rattle.journal.specs.Records.{Record, IsKnown};
ghost use Rattle.journal.specs.Reading.{records_in, record_of, AreInPlace};
ghost use Rattle.journal.specs.declared.rec.Rec.{Rec as ARecord};
ghost use Rattle.archive_core_state.specs.VersionGroups.{Represents};
ghost use Rattle.archive_core_file_spec.specs.Opening.{HasNoEncodingAt};
ghost use Rattle.archive_core_replay.specs.Reading.{IsRefusedIn, IsRead, AreKept};
ghost use Rattle.archive_core_replay.specs.declared.fault.RestoreFault.TheVariants as restoring;

use crate::RestoreFault;
use archive_core_state::{ArchiveState, Groups};
use command_codec::{CodecFault, decode};
use command_codec_checker::{CheckFault, check};
use journal::{CHECKPOINT, Rec};
use smo_ops_types::Command;
use std::alloc::Global;
use store_image::{ImageFault, read_image};
use store_image_reader::read;
use store_image_spec::an_image_is_what_is_read;

/// What is kept of records that were read.
#[derive(Drop)]
pub(crate) struct ReadRecords {
    // as the last image shows it; empty, where there is none
    pub(crate) state: ArchiveState,
    // those after the last image
    pub(crate) commands: Vec<Command>,
    // how many commands there are in all
    pub(crate) count: u64,
}

// The place in the file of a byte within the payload of the record whose gate is at `at`.
fn place_in(at: u64, within: u64) -> u64
    ensures { at + 10 + within < 2 ^ 64 → result ≡ at + 10 + within }
{
    at.saturating_add(10).saturating_add(within)
}

// The command of a record.
fn read_command(alloc: Global, rec: &Rec) -> Result<Command, RestoreFault>
    ensures command { IfOk result (λ c. Encodes (command_of c) rec.now.payload.items) }
    ensures damaged { (place : _) → result ≡ Err (restoring.Damaged place) → rec.now.kind ≡ 1
        → IsRefusedIn rec.now.at (record_of rec.now) place }
{
    match decode(alloc, &rec.payload) {
        Ok(command) => Ok(command),
        Err(CodecFault::BadAt(within)) => Err(RestoreFault::Damaged(place_in(rec.at, within))),
        Err(CodecFault::Rest(within)) => Err(RestoreFault::Damaged(place_in(rec.at, within))),
        Err(CodecFault::NoMemory) => Err(RestoreFault::NoMemory),
    }
}

// That the payload of a record spells a command. None is made.
fn check_command(rec: &Rec) -> Result<(), RestoreFault>
    ensures command { OnOk result ((c : PlainCommand) × Encodes c rec.now.payload.items) }
    ensures damaged { (place : _) → result ≡ Err (restoring.Damaged place) → rec.now.kind ≡ 1
        → IsRefusedIn rec.now.at (record_of rec.now) place }
{
    match check(&rec.payload) {
        Ok(()) => Ok(()),
        Err(CheckFault::BadAt(within)) => Err(RestoreFault::Damaged(place_in(rec.at, within))),
        Err(CheckFault::Rest(within)) => Err(RestoreFault::Damaged(place_in(rec.at, within))),
    }
}

// What the image of a checkpoint's record stands for.
fn read_checkpoint(alloc: Global, rec: &Rec) -> Result<(Groups, Option<u64>), RestoreFault>
    requires { rec.now.kind ≡ 2 }
    ensures image { IfOk result (λ it. (i : Image) × IsImage i
        × (rec.now.payload.items ≡ image_bytes i) × (it.1 ≡ i.last)
        × ((n : ℕ) → Represents it.0 (image_past n i))) }
    ensures damaged { (place : _) → result ≡ Err (restoring.Damaged place)
        → IsRefusedIn rec.now.at (record_of rec.now) place }
{
    an_image_is_what_is_read();
    match read_image(alloc, &rec.payload) {
        Ok(it) => Ok(it),
        Err(ImageFault::BadAt(within)) => Err(RestoreFault::Damaged(place_in(rec.at, within))),
        Err(ImageFault::NoMemory) => Err(RestoreFault::NoMemory),
    }
}

// That the payload of a checkpoint's record is an image. No groups are made of it.
fn check_checkpoint(alloc: Global, rec: &Rec) -> Result<(), RestoreFault>
    requires { rec.now.kind ≡ 2 }
    ensures image { OnOk result ((i : Image) × IsImage i
        × (rec.now.payload.items ≡ image_bytes i)) }
    ensures damaged { (place : _) → result ≡ Err (restoring.Damaged place)
        → IsRefusedIn rec.now.at (record_of rec.now) place }
{
    an_image_is_what_is_read();
    match read(alloc, &rec.payload) {
        Ok(_image) => Ok(()),
        Err(ImageFault::BadAt(within)) => Err(RestoreFault::Damaged(place_in(rec.at, within))),
        Err(ImageFault::NoMemory) => Err(RestoreFault::NoMemory),
    }
}

impl ReadRecords {
    // One record more. What stands before the last image is checked, and nothing is made of it; a
    // command is counted.
    fn read(&mut self, alloc: Global, rec: &Rec, is_after: bool) -> Result<(), RestoreFault>
        requires { self.old.count < 2 ^ 64 - 1 }
        ensures read { OnOk result (IsRead rec.now is_after self.old self.new) }
        ensures few { OnOk result (length self.new.commands.items ≤ length
            self.old.commands.items + 1) }
        ensures count { OnOk result (self.new.count ≤ self.old.count + 1) }
        ensures damaged { (place : _) → result ≡ Err (restoring.Damaged place)
            → IsKnown rec.now.kind → IsRefusedIn rec.now.at (record_of rec.now) place }
    {
        if rec.kind == CHECKPOINT {
            if !is_after {
                check_checkpoint(alloc, rec)?;
                return Ok(());
            }
            let (groups, last) = read_checkpoint(alloc, rec)?;
            self.state = ArchiveState::restored(alloc, groups, last);
            self.commands = Vec::new(alloc);
            return Ok(());
        }
        if !is_after {
            check_command(rec)?;
            self.count += 1;
            return Ok(());
        }
        let command = read_command(alloc, rec)?;
        self.commands.push(command)?;
        self.count += 1;
        Ok(())
    }
}

// How many records stand before the last image; none, where there is no image.
fn before_last_image(recs: &[Rec]) -> usize
    ensures image { 0 < result → (result < length recs.now)
        × ((d : ARecord) → (get_or recs.now result d).kind ≡ 2) }
{
    let mut before = 0;
    for (index, rec) in recs.iter().enumerate() {
        if rec.kind == CHECKPOINT {
            before = index;
        }
    }
    before
}

/// What the records stand for, all of them before any command is carried out. Only the last image
/// and the commands after it are made; what stands before it is checked by its bytes alone.
pub(crate) fn read_all(alloc: Global, recs: &[Rec]) -> Result<ReadRecords, RestoreFault>
    requires { AreInPlace recs.now }
    ensures kept { IfOk result (λ kept. AreKept (records_in recs.now) kept) }
    ensures few { IfOk result (λ kept. length kept.commands.items ≤ length recs.now) }
    ensures damaged { (place : _) → result ≡ Err (restoring.Damaged place)
        → HasNoEncodingAt (records_in recs.now) place }
{
    let before = before_last_image(recs);
    let mut kept = ReadRecords {
        state: ArchiveState::new(alloc),
        commands: Vec::new(alloc),
        count: 0,
    };
    for (index, rec) in recs.iter().enumerate() {
        kept.read(alloc, rec, index >= before)?;
    }
    Ok(kept)
}
