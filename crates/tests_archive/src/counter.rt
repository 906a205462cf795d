//! The counter that a query of an archive on a disk is given: it has the steps of what was read.
ghost use Rattle.std.specs.Prelude.{◌≡◌, ◌<◌};

use crate::archive::{FILLING, command_of, query_of};
use archive_core::Archive;
use disk_model::SureDisk;
use prima_base::Steps;
use prima_base_counter::fresh_steps;
use rewrite_rules::{Rule, RuleBook};
use std::alloc::Global;
use std::marker::Brand;
use std::sync::ledger::{Blank, Ledger};
use std::test::Fail;
use temporal_lang::Query;

// An empty archive on a disk that never fails, mounted with a counter of the ledger.
fn mounted<L: Ledger>(alloc: Global, blank: Blank) -> Result<Archive<SureDisk>, Fail>
    requires name { blank.name ≡ L.name }
    requires parts { blank.parts ≡ L.parts }
    requires some { 0 < blank.parts }
{
    let mut steps: Steps<L> = fresh_steps(blank);
    match Archive::mount(alloc, SureDisk::new(), u64::MAX, &mut steps) {
        Ok((archive, _opened)) => Ok(archive),
        Err((_disk, _fault)) => Err(Fail::new("an empty disk is mounted")),
    }
}

// Commits the command of this text, which is accepted.
fn commit(alloc: Global, archive: &mut Archive<SureDisk>, text: &str) -> Result<(), Fail> {
    let command = command_of(alloc, text)?;
    match archive.commit(command) {
        Ok(_done) => Ok(()),
        Err(_) => Err(Fail::new("each command is accepted")),
    }
}

// Fills the archive with a row that was changed, in a table that has another name in version 2.
fn fill(alloc: Global, archive: &mut Archive<SureDisk>) -> Result<(), Fail> {
    for text in FILLING {
        commit(alloc, archive, text)?;
    }
    Ok(())
}

// How many rows the archive lists for the query, and how many steps of reading the counter has that
// the query is given.
fn rows_and_steps<L: Ledger, R: Rule>(
    archive: &Archive<SureDisk>,
    book: &RuleBook<R>,
    query: &Query,
    blank: Blank,
) -> Result<(usize, u64), Fail>
    requires name { blank.name ≡ L.name }
    requires parts { blank.parts ≡ L.parts }
    requires some { 0 < blank.parts }
{
    let mut steps: Steps<L> = fresh_steps(blank);
    let Ok(listing) = archive.query(book, query, &mut steps) else {
        return Err(Fail::new("the query is answered"));
    };
    Ok((listing.rows.len(), steps.count()))
}

/// The counter that a query is given has the steps of what it read.
pub(crate) fn reads_are_counted<R: Rule>(alloc: Global, book: &RuleBook<R>) -> Result<(), Fail> {
    let mut archive = mounted::<Brand>(alloc, Blank::new(1))?;
    fill(alloc, &mut archive)?;
    let query = query_of(alloc, "QUERY VERSION 2 SELECT a FROM u")?;
    let (rows, steps) = rows_and_steps::<Brand, R>(&archive, book, &query, Blank::new(1))?;
    // A key and an entry of the one row, in each of the tables that it has stood in.
    if rows == 1 && 2 <= steps && steps <= 4 {
        return Ok(());
    }
    Err(Fail::new("a key and an entry of the one row are read, in each table"))
}
