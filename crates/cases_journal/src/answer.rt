//! The texts of what a journal answers.

use cases_text::{write_hex, write_number};
use journal::{JournalFault, PutFault, PutsFault, Rec};
use prima_base::NoMemory;

/// Why a journal was not mounted.
pub(crate) fn write_fault(fault: JournalFault, text: &mut Vec<u8>) -> Result<(), NoMemory> {
    match fault {
        JournalFault::Disk => text.extend_from_slice(b"disk failed")?,
        JournalFault::NoMemory => text.extend_from_slice(b"no memory")?,
        JournalFault::Damaged(place) => {
            text.extend_from_slice(b"damaged ")?;
            write_number(place, text)?;
        }
    }
    Ok(())
}

/// What a put answered.
pub(crate) fn write_put(answer: Result<(), PutFault>, text: &mut Vec<u8>) -> Result<(), NoMemory> {
    match answer {
        Ok(()) => text.extend_from_slice(b"ok")?,
        Err(PutFault::Disk) => text.extend_from_slice(b"disk failed")?,
        Err(PutFault::Full { at, need, limit }) => {
            text.extend_from_slice(b"full ")?;
            write_number(at, text)?;
            text.push(b' ')?;
            write_number(need, text)?;
            text.push(b' ')?;
            write_number(limit, text)?;
        }
    }
    Ok(())
}

/// What became of a list of records.
pub(crate) fn write_puts(
    answer: Result<usize, PutsFault>,
    text: &mut Vec<u8>,
) -> Result<(), NoMemory> {
    match answer {
        Ok(put) => {
            text.extend_from_slice(b"put ")?;
            write_number(put as u64, text)
        }
        Err(PutsFault::Stopped(put)) => {
            text.extend_from_slice(b"stopped behind ")?;
            write_number(put as u64, text)
        }
        Err(PutsFault::NotMounted(fault)) => write_fault(fault, text),
    }
}

/// The places of the records' gates, after one another.
pub(crate) fn write_places(recs: &[Rec], text: &mut Vec<u8>) -> Result<(), NoMemory> {
    text.extend_from_slice(b"holds")?;
    if recs.is_empty() {
        text.extend_from_slice(b" none")?;
    }
    for rec in recs {
        text.push(b' ')?;
        write_number(rec.at, text)?;
    }
    Ok(())
}

/// Each record on a line of its own.
pub(crate) fn write_records(recs: &[Rec], text: &mut Vec<u8>) -> Result<(), NoMemory> {
    for rec in recs {
        text.extend_from_slice(b"record ")?;
        write_number(rec.at, text)?;
        text.push(b' ')?;
        write_number(rec.kind as u64, text)?;
        if !rec.payload.is_empty() {
            text.push(b' ')?;
            write_hex(&rec.payload, text)?;
        }
        text.push(b'\n')?;
    }
    Ok(())
}
