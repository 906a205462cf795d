//! Reading a journal's file record by record: its header and the records up to the closed gate, or
//! the first place where the file is damaged. What stands behind the closed gate is not read.

ghost use Rattle.std.specs.Prelude.{◌≡◌, ◌+◌, ◌<◌, ◌≤◌, ◌-◌, ◌^◌, List, ℕ, length, get_or, drop, take};
ghost use Rattle.std.specs.Prelude.{IfOk, OnOk, OnErr, IfSome, IfNone, Err};
ghost use Rattle.prima_io.specs.Causes.{Rose};
ghost use Rattle.disk_model.specs.Meaning.{IfKnown};
ghost use Rattle.disk_model.specs.DeviceCalls.{Reads};
ghost use Rattle.journal.specs.Damage.{IsBadFrame, IsDamagedAt, DiffersAt};
ghost use Rattle.journal.specs.JournalFiles.{HasGate};
ghost use Rattle.journal.specs.Reading.{AreRead, AreInPlace, IsRead, IsHead};
ghost use Rattle.journal.specs.Records.{header, IsKnown};
ghost use Rattle.journal.specs.declared.fault.JournalFault.TheVariants as mounting;

use crate::fault::JournalFault;
use crate::rec::{RECORD_HEAD, Rec, is_known};
use disk_model::{Disk, Failed};
use std::alloc::Global;

const HEADER: [u8; 8] = *b"PRIMA001";

// How many bytes of a record stand before its payload, as a number of places.
const HEAD: u64 = RECORD_HEAD as u64;

// What stands before a record's payload: its kind, and the payload's length.
#[derive(Clone, Copy)]
struct Head {
    kind: u8,
    len: u64,
}

// The first of the eight bytes that differs from the header.
fn first_difference(bytes: &[u8]) -> Option<usize>
    requires { 8 ≤ length bytes.now }
    ensures found { IfSome result (λ place. DiffersAt bytes.now place) }
    ensures none { IfNone result (take 8 bytes.now ≡ header) }
{
    for place in 0..8 {
        if bytes[place] != HEADER[place] {
            return Some(place);
        }
    }
    None
}

// The gate after the header.
fn read_first_gate<D: Disk>(disk: &mut D) -> Result<u8, JournalFault>
    requires long { IfKnown (D.meaning disk.old).seen (λ file. 9 < length file) }
    ensures header { OnOk result (IfKnown (D.meaning disk.old).seen
        (λ file. take 8 file ≡ header)) }
    ensures gate { IfOk result (λ gate. IfKnown (D.meaning disk.old).seen
        (λ file. gate ≡ get_or file 8 0)) }
    ensures damaged { (place : _) → result ≡ Err (mounting.Damaged place)
        → IfKnown (D.meaning disk.old).seen (λ file. DiffersAt file place) }
    ensures reads { Reads (D.meaning disk.old) (D.meaning disk.new) }
    ensures cause { result ≡ Err mounting.Disk
        → Rose (D.meaning disk.old).faults (D.meaning disk.new).faults }
    ensures unfailed { (result ≡ Err mounting.Disk → ⊥)
        → (D.meaning disk.new).faults ≡ (D.meaning disk.old).faults }
{
    let mut bytes = [0u8; 9];
    disk.read_at(0, &mut bytes)?;
    match first_difference(&bytes) {
        Some(place) => Err(JournalFault::Damaged(place as u64)),
        None => Ok(bytes[8]),
    }
}

// How many bytes stand after the gate at `at`. The file's length is asked again where it was not
// more than `need` bytes past that gate: another run may have put a record since then.
fn left_after<D: Disk>(disk: &mut D, at: u64, need: u64, end: &mut u64) -> Result<u64, Failed>
    requires place { at + 1 < 2 ^ 64 }
    requires below { end.old < 2 ^ 64 - 1 }
    requires end { IfKnown (D.meaning disk.old).seen (λ file. end.old ≡ length file) }
    ensures below { end.new < 2 ^ 64 - 1 }
    ensures end { IfKnown (D.meaning disk.old).seen (λ file. end.new ≡ length file) }
    ensures left { IfOk result (λ n. n ≡ end.new - (at + 1)) }
    ensures reads { Reads (D.meaning disk.old) (D.meaning disk.new) }
    ensures cause { OnErr result (Rose (D.meaning disk.old).faults (D.meaning disk.new).faults) }
    ensures unfailed { OnOk result ((D.meaning disk.new).faults ≡ (D.meaning disk.old).faults) }
{
    let left = end.saturating_sub(at + 1);
    if left > need {
        return Ok(left);
    }
    *end = disk.len()?;
    Ok(end.saturating_sub(at + 1))
}

// What these first bytes of a record say, nine of them or all that there are after its open gate at
// `at`.
fn head_of(at: u64, first: &[u8]) -> Result<Head, JournalFault>
    requires { at + 2 < 2 ^ 64 }
    ensures known { IfOk result (λ head. IsKnown head.kind) }
    ensures head { IfOk result (λ head. (rest : List ℕ) → take 9 rest ≡ first.now
        → IsHead rest head.kind head.len) }
    ensures damaged { (place : _) → result ≡ Err (mounting.Damaged place) → (rest : List ℕ)
        → take 9 rest ≡ first.now → IsBadFrame at rest place }
    ensures disk { result ≡ Err mounting.Disk → ⊥ }
{
    let Some(kind) = first.first().copied() else {
        return Err(JournalFault::Damaged(at + 1));
    };
    if !is_known(kind) {
        return Err(JournalFault::Damaged(at + 1));
    }
    let [_, a, b, c, d, e, f, g, h, ..] = first else {
        return Err(JournalFault::Damaged(at + 2));
    };
    let len = u64::from_be_bytes([*a, *b, *c, *d, *e, *f, *g, *h]);
    Ok(Head { kind, len })
}

// What stands before the payload of the record after the open gate at `at`, after which so many
// bytes stand.
fn read_head<D: Disk>(disk: &mut D, at: u64, left: u64) -> Result<Head, JournalFault>
    requires ends { at + 1 + left < 2 ^ 64 - 1 }
    requires left { IfKnown (D.meaning disk.old).seen (λ file. at + 1 + left ≡ length file) }
    ensures known { IfOk result (λ head. IsKnown head.kind) }
    ensures head { IfOk result (λ head. IfKnown (D.meaning disk.old).seen
        (λ file. IsHead (drop (at + 1) file) head.kind head.len)) }
    ensures damaged { (place : _) → result ≡ Err (mounting.Damaged place)
        → IfKnown (D.meaning disk.old).seen (λ file. IsBadFrame at (drop (at + 1) file) place) }
    ensures reads { Reads (D.meaning disk.old) (D.meaning disk.new) }
    ensures cause { result ≡ Err mounting.Disk
        → Rose (D.meaning disk.old).faults (D.meaning disk.new).faults }
    ensures unfailed { (result ≡ Err mounting.Disk → ⊥)
        → (D.meaning disk.new).faults ≡ (D.meaning disk.old).faults }
{
    let mut bytes = [0u8; 9];
    let first = &mut bytes[..left.min(HEAD) as usize];
    disk.read_at(at + 1, first)?;
    head_of(at, first)
}

// The record after the open gate at `at`, whose head was read, and the gate after it.
fn read_rest<D: Disk>(
    alloc: Global,
    disk: &mut D,
    at: u64,
    head: Head,
) -> Result<(Rec, u8), JournalFault>
    requires ends { at + 11 + head.len < 2 ^ 64 - 1 }
    requires within { IfKnown (D.meaning disk.old).seen
        (λ file. at + 10 + head.len < length file) }
    requires known { IsKnown head.kind }
    requires head { IfKnown (D.meaning disk.old).seen
        (λ file. IsHead (drop (at + 1) file) head.kind head.len) }
    ensures place { IfOk result (λ it. it.0.at ≡ at) }
    ensures known { IfOk result (λ it. IsKnown it.0.kind) }
    ensures len { IfOk result (λ it. length it.0.payload.items ≡ head.len) }
    ensures read { IfOk result (λ it. IfKnown (D.meaning disk.old).seen
        (λ file. IsRead at (drop (at + 1) file) it.0 (9 + length it.0.payload.items))) }
    ensures gate { IfOk result (λ it. IfKnown (D.meaning disk.old).seen
        (λ file. it.1 ≡ get_or file (at + 10 + length it.0.payload.items) 0)) }
    ensures damaged { (place : _) → result ≡ Err (mounting.Damaged place) → ⊥ }
    ensures reads { Reads (D.meaning disk.old) (D.meaning disk.new) }
    ensures cause { result ≡ Err mounting.Disk
        → Rose (D.meaning disk.old).faults (D.meaning disk.new).faults }
    ensures unfailed { (result ≡ Err mounting.Disk → ⊥)
        → (D.meaning disk.new).faults ≡ (D.meaning disk.old).faults }
{
    let len = head.len as usize;
    let mut payload = vec![in alloc; 0u8; len + 1]?;
    disk.read_at(at + 1 + HEAD, &mut payload)?;
    let gate = payload[len];
    payload.truncate(len);
    let rec = Rec {
        at,
        kind: head.kind,
        payload,
    };
    Ok((rec, gate))
}

// The record after the open gate at `at`, and the gate after it. The file was as long as `end`
// says, and is so after it too.
fn read_record<D: Disk>(
    alloc: Global,
    disk: &mut D,
    at: u64,
    end: &mut u64,
) -> Result<(Rec, u8), JournalFault>
    requires inside { at < end.old }
    requires below { end.old < 2 ^ 64 - 1 }
    requires end { IfKnown (D.meaning disk.old).seen (λ file. end.old ≡ length file) }
    ensures below { end.new < 2 ^ 64 - 1 }
    ensures end { IfKnown (D.meaning disk.old).seen (λ file. end.new ≡ length file) }
    ensures inside { IfOk result (λ it. at + 10 + length it.0.payload.items < end.new) }
    ensures place { IfOk result (λ it. it.0.at ≡ at) }
    ensures known { IfOk result (λ it. IsKnown it.0.kind) }
    ensures read { IfOk result (λ it. IfKnown (D.meaning disk.old).seen
        (λ file. IsRead at (drop (at + 1) file) it.0 (9 + length it.0.payload.items))) }
    ensures gate { IfOk result (λ it. IfKnown (D.meaning disk.old).seen
        (λ file. it.1 ≡ get_or file (at + 10 + length it.0.payload.items) 0)) }
    ensures damaged { (place : _) → result ≡ Err (mounting.Damaged place)
        → IfKnown (D.meaning disk.old).seen (λ file. IsBadFrame at (drop (at + 1) file) place) }
    ensures reads { Reads (D.meaning disk.old) (D.meaning disk.new) }
    ensures cause { result ≡ Err mounting.Disk
        → Rose (D.meaning disk.old).faults (D.meaning disk.new).faults }
    ensures unfailed { (result ≡ Err mounting.Disk → ⊥)
        → (D.meaning disk.new).faults ≡ (D.meaning disk.old).faults }
{
    let left = left_after(disk, at, HEAD, end)?;
    let head = read_head(disk, at, left)?;
    let left = left_after(disk, at, HEAD.saturating_add(head.len), end)?;
    if left.saturating_sub(HEAD) <= head.len {
        return Err(JournalFault::Damaged(at + 2));
    }
    read_rest(alloc, disk, at, head)
}

// The records of a file of so many bytes, and the place of the gate after them.
pub(crate) fn read_records<D: Disk>(
    alloc: Global,
    disk: &mut D,
    len: u64,
) -> Result<(Vec<Rec>, u64), JournalFault>
    requires long { 9 < len }
    requires short { len < 2 ^ 64 - 1 }
    requires len { IfKnown (D.meaning disk.old).seen (λ file. len ≡ length file) }
    ensures read { IfOk result (λ it. IfKnown (D.meaning disk.old).seen
        (λ file. AreRead file it.0.items it.1)) }
    ensures in_place { IfOk result (λ it. AreInPlace it.0.items) }
    ensures ready { IfOk result (λ it. HasGate (D.meaning disk.old) it.1) }
    ensures damaged { (place : _) → result ≡ Err (mounting.Damaged place)
        → IfKnown (D.meaning disk.old).seen (λ file. IsDamagedAt file place) }
    ensures reads { Reads (D.meaning disk.old) (D.meaning disk.new) }
    ensures cause { result ≡ Err mounting.Disk
        → Rose (D.meaning disk.old).faults (D.meaning disk.new).faults }
    ensures unfailed { (result ≡ Err mounting.Disk → ⊥)
        → (D.meaning disk.new).faults ≡ (D.meaning disk.old).faults }
{
    let mut gate = read_first_gate(disk)?;
    let mut end = len;
    let mut at = HEADER.len() as u64;
    let mut recs = Vec::new(alloc);
    'records: while gate == 1 {
        let (rec, next) = read_record(alloc, disk, at, &mut end)?;
        at += 1 + HEAD + rec.payload.len() as u64;
        gate = next;
        recs.push(rec)?;
    }
    Ok((recs, at))
}
