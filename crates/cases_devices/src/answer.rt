//! What a run is answered, as one line.

use cases_text::{write_hex, write_number};
use prima_base::NoMemory;
use script_cli::{MountFault, Opened};

/// Writes the lines of replies after each other, apart by ` | `. A line that was not ended is
/// followed by `~`.
pub(crate) fn write_replies(replies: &[u8], text: &mut Vec<u8>) -> Result<(), NoMemory> {
    for (at, byte) in replies.iter().enumerate() {
        if *byte != b'\n' {
            text.push(*byte)?;
            continue;
        }
        if at.wrapping_add(1) < replies.len() {
            text.extend_from_slice(b" | ")?;
        }
    }
    if let Some(last) = replies.last() {
        if *last != b'\n' {
            text.push(b'~')?;
        }
    }
    Ok(())
}

/// Writes the status of a run and its replies.
pub(crate) fn write_end(code: u8, replies: &[u8], text: &mut Vec<u8>) -> Result<(), NoMemory> {
    text.extend_from_slice(b"status ")?;
    write_number(u64::from(code), text)?;
    text.extend_from_slice(b": ")?;
    write_replies(replies, text)
}

/// Writes what a mount found, or why it found none.
pub(crate) fn write_opened(
    opened: Result<Opened, MountFault>,
    text: &mut Vec<u8>,
) -> Result<(), NoMemory> {
    match opened {
        Ok(opened) => {
            text.extend_from_slice(b"commands ")?;
            write_number(opened.commands, text)?;
            text.extend_from_slice(b", replayed ")?;
            write_number(opened.replayed, text)?;
        }
        Err(MountFault::Damaged(place)) => {
            text.extend_from_slice(b"damaged ")?;
            write_number(place, text)?;
        }
        Err(MountFault::Disk) => text.extend_from_slice(b"disk failed")?,
        Err(MountFault::NoMemory) => return Err(NoMemory),
    }
    Ok(())
}

/// Writes the bytes of the file that is left.
pub(crate) fn write_file(file: &[u8], text: &mut Vec<u8>) -> Result<(), NoMemory> {
    text.extend_from_slice(b"; file ")?;
    write_hex(file, text)
}

/// Writes the bytes of the file that is left, and what a later run over it answers.
pub(crate) fn write_left(file: &[u8], later: &[u8], text: &mut Vec<u8>) -> Result<(), NoMemory> {
    write_file(file, text)?;
    text.extend_from_slice(b"; later ")?;
    write_replies(later, text)
}
