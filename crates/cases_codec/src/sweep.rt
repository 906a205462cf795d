//! What reading many variants of one command's bytes answers.

use cases_text::{Groups, write_number};
use command_codec::{CodecFault, decode};
use prima_base::NoMemory;
use std::alloc::Global;

// What bytes are.
#[derive(Clone, Copy)]
enum Found {
    Command,
    Bad(u64),
    Rest(u64),
}

// What these bytes are.
fn read_as(alloc: Global, bytes: &[u8]) -> Result<Found, NoMemory> {
    match decode(alloc, bytes) {
        Ok(_) => Ok(Found::Command),
        Err(CodecFault::BadAt(place)) => Ok(Found::Bad(place)),
        Err(CodecFault::Rest(place)) => Ok(Found::Rest(place)),
        Err(CodecFault::NoMemory) => Err(NoMemory),
    }
}

// A cut command in words.
fn cut_text(alloc: Global, found: Found, len: u64) -> Result<Vec<u8>, NoMemory> {
    let mut text = Vec::new(alloc);
    match found {
        Found::Command => text.extend_from_slice(b"command")?,
        Found::Bad(place) if place == len => text.extend_from_slice(b"bad at the end")?,
        Found::Bad(place) => {
            text.extend_from_slice(b"bad ")?;
            write_number(place, &mut text)?;
        }
        Found::Rest(place) => {
            text.extend_from_slice(b"rest ")?;
            write_number(place, &mut text)?;
        }
    }
    Ok(text)
}

/// Each proper prefix of the bytes, the shortest first.
pub(crate) fn write_cuts(alloc: Global, bytes: &[u8], lines: &mut Vec<u8>) -> Result<(), NoMemory> {
    let mut groups = Groups::new();
    for len in 0..bytes.len() {
        let found = read_as(alloc, &bytes[..len])?;
        let text = cut_text(alloc, found, len as u64)?;
        groups.add(len as u64, text, lines)?;
    }
    groups.end(lines)
}

// The sign of what bytes of this length are that were changed at a place, and where they are so, if
// that is at another place.
fn sign_of(found: Found, place: u64, len: u64) -> (u8, Option<u64>) {
    match found {
        Found::Command => (b'+', None),
        Found::Bad(bad) if bad == place => (b'.', None),
        Found::Bad(bad) if bad == len => (b'$', None),
        Found::Bad(bad) => (b'>', Some(bad)),
        Found::Rest(rest) => (b'<', Some(rest)),
    }
}

// A place, and where the bytes that were changed there are bad or end to be a command.
fn write_note(place: u64, sign: u8, at: u64, notes: &mut Vec<u8>) -> Result<(), NoMemory> {
    notes.push(b' ')?;
    write_number(place, notes)?;
    notes.push(sign)?;
    write_number(at, notes)
}

/// The bytes with each byte in turn set to this one.
pub(crate) fn write_changes(
    alloc: Global,
    bytes: &[u8],
    byte: u8,
    lines: &mut Vec<u8>,
) -> Result<(), NoMemory> {
    let mut changed = Vec::from_slice(alloc, bytes)?;
    let mut notes = Vec::new(alloc);
    for place in 0..changed.len() {
        let old = changed[place];
        changed[place] = byte;
        let found = read_as(alloc, &changed)?;
        let (sign, at) = sign_of(found, place as u64, changed.len() as u64);
        lines.push(sign)?;
        if let Some(at) = at {
            write_note(place as u64, sign, at, &mut notes)?;
        }
        changed[place] = old;
    }
    lines.extend_from_slice(&notes)?;
    lines.push(b'\n')?;
    Ok(())
}
