//! Words of a line as rows.

use cases_text::read_value;
use prima_base::{NoMemory, Row};
use std::alloc::Global;

/// The row of the values that the words spell.
pub(crate) fn read_row(alloc: Global, text: &[u8]) -> Result<Row, NoMemory> {
    let mut values = Vec::new(alloc);
    for word in text.split(|byte| *byte == b' ') {
        values.push(read_value(alloc, word)?)?;
    }
    Ok(Row::new(alloc, values))
}
