//! How many tables were looked at, and what was found.

use cases_text::write_number;
use prima_base::NoMemory;

/// The tables that were asked for over a version, those of them that are lost and those that are
/// too wide, and the pieces of all.
#[derive(Clone, Copy)]
pub(crate) struct Tally {
    pub tables: u64,
    pub lost: u64,
    pub pieces: u64,
    pub wide: u64,
}

impl Tally {
    /// Nothing was looked at.
    pub(crate) fn new() -> Tally {
        Tally {
            tables: 0,
            lost: 0,
            pieces: 0,
            wide: 0,
        }
    }

    /// A table was looked at.
    pub(crate) fn add(&mut self, pieces: u64, is_lost: bool, is_wide: bool) {
        self.tables = self.tables.saturating_add(1);
        self.pieces = self.pieces.saturating_add(pieces);
        self.lost = self.lost.saturating_add(is_lost as u64);
        self.wide = self.wide.saturating_add(is_wide as u64);
    }

    /// Writes the line of it.
    pub(crate) fn write(&self, text: &mut Vec<u8>) -> Result<(), NoMemory> {
        text.extend_from_slice(b"tables ")?;
        write_number(self.tables, text)?;
        text.extend_from_slice(b", lost ")?;
        write_number(self.lost, text)?;
        text.extend_from_slice(b", pieces ")?;
        write_number(self.pieces, text)?;
        text.extend_from_slice(b", too wide ")?;
        write_number(self.wide, text)?;
        text.push(b'\n')?;
        Ok(())
    }
}
