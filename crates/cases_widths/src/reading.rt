//! The tables of each version, read from each.

use crate::question::question;
use crate::tally::Tally;
use crate::version::{begin_of, version_count, widths_from_each};
use crate::width::{is_within, least_width, write_beside};
use archive_core_state::{ArchiveState, AskFault};
use cases_text::write_number;
use piece_ir::Explained;
use prima_base::{Name, NoMemory};
use rewrite_rules::{Rule, RuleBook};
use schema_catalog::Table;
use smo_ops_widths::TableWidth;
use std::alloc::Global;
use std::collections::BTreeMap;
use temporal_lang::When;

/// What is found of the tables of an archive: a line of each where each is told, and how many.
#[derive(Drop)]
pub(crate) struct Reading {
    pub alloc: Global,
    pub is_each: bool,
    pub lines: Vec<u8>,
    pub tally: Tally,
}

// The pieces by which the table of version `asked` is read at these moments; none where it, or a
// column of it, is lost at one of them.
fn pieces_at<R: Rule>(
    alloc: Global,
    book: &RuleBook<R>,
    archive: &ArchiveState,
    asked: usize,
    table: &Table,
    when: When,
) -> Result<Option<Vec<Explained>>, NoMemory> {
    let Ok(version) = u32::try_from(asked) else {
        return Ok(None);
    };
    let Some(query) = question(alloc, version, table, when)? else {
        return Ok(None);
    };
    match archive.explain(book, &query) {
        Ok(pieces) => Ok(Some(pieces)),
        Err(AskFault::Refused(_)) => Ok(None),
        Err(AskFault::NoMemory) => Err(NoMemory),
    }
}

impl Reading {
    /// Nothing was read; each table is told, or only how many they are.
    pub(crate) fn new(alloc: Global, is_each: bool) -> Reading {
        Reading {
            alloc,
            is_each,
            lines: Vec::new(alloc),
            tally: Tally::new(),
        }
    }

    // What stands before what is told of a table.
    fn write_head(&mut self, table: &Table, stored: usize, asked: usize) -> Result<(), NoMemory> {
        self.lines.extend_from_slice(table.name().bytes())?;
        self.lines.extend_from_slice(b" of ")?;
        write_number(asked as u64, &mut self.lines)?;
        self.lines.extend_from_slice(b" from ")?;
        write_number(stored as u64, &mut self.lines)?;
        self.lines.extend_from_slice(b": ")?;
        Ok(())
    }

    // The table, which is lost.
    fn add_lost(&mut self, table: &Table, stored: usize, asked: usize) -> Result<(), NoMemory> {
        self.tally.add(0, true, false);
        if self.is_each {
            self.write_head(table, stored, asked)?;
            self.lines.extend_from_slice(b"lost\n")?;
        }
        Ok(())
    }

    // The table, which is read by pieces that have this width, beside the width that it has.
    fn add_read(
        &mut self,
        table: &Table,
        stored: usize,
        asked: usize,
        found: &TableWidth,
        width: &TableWidth,
    ) -> Result<(), NoMemory> {
        let is_wide = !is_within(found, width);
        self.tally.add(found.pieces, false, is_wide);
        if self.is_each {
            self.write_head(table, stored, asked)?;
            write_beside(found, width, table.columns(), &mut self.lines)?;
            if is_wide {
                self.lines.extend_from_slice(b", too wide")?;
            }
            self.lines.push(b'\n')?;
        }
        Ok(())
    }

    // The table of version `asked`, which these pieces read, over version `stored`, from where the
    // tables have these widths. One that is not lost by names and has no width is wider than it.
    fn read_over(
        &mut self,
        stored: usize,
        asked: usize,
        table: &Table,
        pieces: &[Explained],
        widths: &BTreeMap<Name, TableWidth>,
    ) -> Result<(), NoMemory> {
        let version = u32::try_from(stored).unwrap_or(u32::MAX);
        let found = least_width(self.alloc, pieces, version)?;
        match widths.get(table.name()) {
            Some(width) => self.add_read(table, stored, asked, &found, width),
            None => {
                let none = least_width(self.alloc, &[], 0)?;
                self.add_read(table, stored, asked, &found, &none)
            }
        }
    }

    // The table, which is lost over some version, over version `stored` alone.
    fn read_alone<R: Rule>(
        &mut self,
        book: &RuleBook<R>,
        archive: &ArchiveState,
        stored: usize,
        asked: usize,
        table: &Table,
        widths: &BTreeMap<Name, TableWidth>,
    ) -> Result<(), NoMemory> {
        let when = When::During(
            begin_of(archive, stored),
            begin_of(archive, stored.saturating_add(1)),
        );
        match pieces_at(self.alloc, book, archive, asked, table, when)? {
            None => self.add_lost(table, stored, asked),
            Some(pieces) => self.read_over(stored, asked, table, &pieces, widths),
        }
    }

    // The table of version `asked`, over each version, from where the tables have these widths.
    fn read_table<R: Rule>(
        &mut self,
        book: &RuleBook<R>,
        archive: &ArchiveState,
        asked: usize,
        table: &Table,
        widths: &[BTreeMap<Name, TableWidth>],
    ) -> Result<(), NoMemory> {
        let pieces = pieces_at(self.alloc, book, archive, asked, table, When::Always)?;
        for stored in 0..widths.len() {
            let widths = &widths[stored];
            match &pieces {
                None => self.read_alone(book, archive, stored, asked, table, widths)?,
                Some(pieces) => self.read_over(stored, asked, table, pieces, widths)?,
            }
        }
        Ok(())
    }

    /// Each table of each version, over each version.
    pub(crate) fn read_all<R: Rule>(
        &mut self,
        book: &RuleBook<R>,
        archive: &ArchiveState,
    ) -> Result<(), NoMemory> {
        for asked in 0..version_count(archive) {
            let widths = widths_from_each(self.alloc, archive, asked)?;
            let version = u32::try_from(asked).unwrap_or(u32::MAX);
            if let Some(schema) = archive.groups().schema(version) {
                for place in 0..schema.len() {
                    self.read_table(book, archive, asked, schema.at(place), &widths)?;
                }
            }
        }
        Ok(())
    }
}
