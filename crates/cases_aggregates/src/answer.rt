//! The lines that a case is answered by.

use cases_text::write_number;
use itoa::Buffer;
use prima_base::{AggRow, AggValue, FOREVER, NoMemory, Period, Val};

fn write_period(period: Period, text: &mut Vec<u8>) -> Result<(), NoMemory> {
    text.push(b' ')?;
    write_number(period.start(), text)?;
    text.push(b' ')?;
    if period.end() == FOREVER {
        text.extend_from_slice(b"now")?;
        return Ok(());
    }
    write_number(period.end(), text)
}

fn write_text(bytes: &[u8], text: &mut Vec<u8>) -> Result<(), NoMemory> {
    text.extend_from_slice(b" '")?;
    text.extend_from_slice(bytes)?;
    text.push(b'\'')?;
    Ok(())
}

fn write_value(value: &Val<'_>, text: &mut Vec<u8>) -> Result<(), NoMemory> {
    match value {
        Val::Int(n) => {
            text.push(b' ')?;
            text.extend_from_slice(Buffer::new().format(*n).as_bytes())?;
            Ok(())
        }
        Val::Slice(bytes) => write_text(bytes, text),
        Val::Own(own) => write_text(own.bytes(), text),
    }
}

/// Writes an entry: its period and its values.
pub(crate) fn write_entry(
    period: Period,
    values: &[Val<'_>],
    text: &mut Vec<u8>,
) -> Result<(), NoMemory> {
    write_period(period, text)?;
    for value in values {
        write_value(value, text)?;
    }
    Ok(())
}

fn write_aggregate(value: &AggValue<'_>, text: &mut Vec<u8>) -> Result<(), NoMemory> {
    match value {
        AggValue::Count(count) => {
            text.push(b' ')?;
            write_number(*count, text)
        }
        AggValue::Of(value) => write_value(value, text),
        AggValue::Sum(sum) => {
            text.push(b' ')?;
            text.extend_from_slice(Buffer::new().format(*sum).as_bytes())?;
            Ok(())
        }
    }
}

/// Writes the line of a group.
pub(crate) fn write_group(row: &AggRow<'_>, text: &mut Vec<u8>) -> Result<(), NoMemory> {
    text.extend_from_slice(b"row")?;
    write_entry(row.period, &row.group, text)?;
    for value in row.values.iter() {
        write_aggregate(value, text)?;
    }
    text.push(b'\n')?;
    Ok(())
}

/// Writes the line that counts those before it.
pub(crate) fn write_count(count: u64, text: &mut Vec<u8>) -> Result<(), NoMemory> {
    text.extend_from_slice(b"end ")?;
    write_number(count, text)?;
    text.push(b'\n')?;
    Ok(())
}
