//! Copies of rows.

use prima_base::{NoMemory, Row};

/// Puts a copy of each of the rows after the list. The one error comes where memory runs out.
pub fn add_copies(list: &mut Vec<Row>, rows: &[Row]) -> Result<(), NoMemory> {
    for row in rows {
        list.push(row.copy()?)?;
    }
    Ok(())
}
