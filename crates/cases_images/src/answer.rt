//! What reading an image answers.

use cases_text::{Groups, write_number};
use prima_base::NoMemory;
use std::alloc::Global;
use store_image_reader::{ImageFault, ReadImage, read};

// How much an image has, and its last stamp.
fn write_image(image: &ReadImage<'_>, text: &mut Vec<u8>) -> Result<(), NoMemory> {
    text.extend_from_slice(b"image ")?;
    write_number(image.versions.list.len() as u64, text)?;
    text.extend_from_slice(b" versions, ")?;
    write_number(image.lines.len() as u64, text)?;
    text.extend_from_slice(b" lifelines, last ")?;
    match image.last {
        None => text.extend_from_slice(b"none")?,
        Some(stamp) => write_number(stamp, text)?,
    }
    Ok(())
}

/// What reading these bytes answers.
pub(crate) fn read_text(alloc: Global, bytes: &[u8]) -> Result<Vec<u8>, NoMemory> {
    let mut text = Vec::new(alloc);
    match read(alloc, bytes) {
        Ok(image) => write_image(&image, &mut text)?,
        Err(ImageFault::BadAt(place)) => {
            text.extend_from_slice(b"bad ")?;
            write_number(place, &mut text)?;
        }
        Err(ImageFault::NoMemory) => text.extend_from_slice(b"out of memory")?,
    }
    Ok(text)
}

/// The same for each proper prefix of the bytes, the shortest first.
pub(crate) fn write_cuts(alloc: Global, bytes: &[u8], lines: &mut Vec<u8>) -> Result<(), NoMemory> {
    let mut groups = Groups::new();
    for len in 0..bytes.len() {
        let text = read_text(alloc, &bytes[..len])?;
        groups.add(len as u64, text, lines)?;
    }
    groups.end(lines)
}

/// The same for the bytes with each byte in turn set to this one.
pub(crate) fn write_each(
    alloc: Global,
    bytes: &[u8],
    byte: u8,
    lines: &mut Vec<u8>,
) -> Result<(), NoMemory> {
    let mut groups = Groups::new();
    let mut changed = Vec::from_slice(alloc, bytes)?;
    for place in 0..changed.len() {
        let old = changed[place];
        changed[place] = byte;
        let text = read_text(alloc, &changed)?;
        groups.add(place as u64, text, lines)?;
        changed[place] = old;
    }
    groups.end(lines)
}
