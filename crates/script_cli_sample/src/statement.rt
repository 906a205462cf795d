ghost use Rattle.std.specs.Prelude.{◌≡◌, ◌++◌, ◌+◌, ◌-◌, ◌<◌, ◌^◌, IfOk, OnOk, decimal};
ghost use Rattle.script_cli_sample.specs.Statements as spec;

use crate::text::{add, add_number, stamp, stamped, text_of};
use prima_base::NoMemory;
use std::alloc::Global;

/// The moment of the first row.
const ROWS_AT: u64 = 10;

// The moment of the first operator after the rows.
fn evolved_at(size: u32) -> u64
    ensures { result ≡ spec.evolved_at size }
{
    ROWS_AT + size as u64
}

// The moment of the first update.
fn updated_at(size: u32) -> u64
    ensures { result ≡ spec.updated_at size }
{
    evolved_at(size) + 4
}

// The moment at which the first title is renamed.
fn retitled_at(size: u32) -> u64
    ensures { result ≡ spec.retitled_at size }
{
    updated_at(size) + size as u64
}

/// The table of pages is made.
pub(crate) fn page_made(alloc: Global) -> Result<Vec<u8>, NoMemory>
    ensures { IfOk result (λ t. t.items ≡ spec.page_made) }
{
    text_of(
        alloc,
        b"AT 1 EVOLVE CREATE TABLE page (id INT, title TEXT, kind INT)",
    )
}

// The prefix of what inserts a row.
#[tactic(auto, unfolding(crate::specs::Statements::row_prefix))]
fn add_row_prefix(text: &mut Vec<u8>) -> Result<(), NoMemory>
    ensures { OnOk result (text.new.items ≡ text.old.items ++ spec.row_prefix) }
{
    add(text, b"INSERT INTO page (id, title, kind) VALUES (")
}

// What inserts row i.
fn add_row(text: &mut Vec<u8>, i: u32) -> Result<(), NoMemory>
    ensures { OnOk result (text.new.items ≡ text.old.items ++ spec.row_given i) }
{
    add_row_prefix(text)?;
    add_number(text, i as u64)?;
    add(text, b", 'p")?;
    add_number(text, i as u64)?;
    add(text, b"', ")?;
    add_number(text, (i % 4) as u64)?;
    add(text, b")")
}

/// Row i is inserted.
pub(crate) fn page_inserted(alloc: Global, i: u32) -> Result<Vec<u8>, NoMemory>
    ensures { IfOk result (λ t. t.items ≡ spec.page_inserted i) }
{
    let mut text = stamp(alloc, ROWS_AT + i as u64)?;
    add_row(&mut text, i)?;
    Ok(text)
}

/// Pages are given a state.
pub(crate) fn state_added(alloc: Global, size: u32) -> Result<Vec<u8>, NoMemory>
    ensures { IfOk result (λ t. t.items ≡ spec.state_added size) }
{
    stamped(
        alloc,
        evolved_at(size),
        b"EVOLVE ADD COLUMN state AS 'new' INTO page INVERSE DROP COLUMN state FROM page",
    )
}

/// Pages of kind 0 and the others are parted.
pub(crate) fn pages_split(alloc: Global, size: u32) -> Result<Vec<u8>, NoMemory>
    ensures { IfOk result (λ t. t.items ≡ spec.pages_split size) }
{
    stamped(
        alloc,
        evolved_at(size) + 1,
        b"EVOLVE PARTITION TABLE page INTO hot WITH kind = 0, cold \
            INVERSE MERGE TABLE hot, cold INTO page",
    )
}

/// A column is renamed.
pub(crate) fn title_renamed(alloc: Global, size: u32) -> Result<Vec<u8>, NoMemory>
    ensures { IfOk result (λ t. t.items ≡ spec.title_renamed size) }
{
    stamped(
        alloc,
        evolved_at(size) + 2,
        b"EVOLVE RENAME COLUMN title IN hot TO name INVERSE RENAME COLUMN name IN hot TO title",
    )
}

/// A table is split by columns.
pub(crate) fn cold_split(alloc: Global, size: u32) -> Result<Vec<u8>, NoMemory>
    ensures { IfOk result (λ t. t.items ≡ spec.cold_split size) }
{
    stamped(
        alloc,
        evolved_at(size) + 3,
        b"EVOLVE DECOMPOSE TABLE cold INTO cold_id (id, kind, state), cold_title (id, title) \
            INVERSE JOIN TABLE cold_id, cold_title INTO cold WHERE TRUE",
    )
}

// What updates row i.
fn add_state(text: &mut Vec<u8>, i: u32) -> Result<(), NoMemory>
    ensures { OnOk result (text.new.items ≡ text.old.items ++ spec.state_set i) }
{
    add(text, b"UPDATE hot SET state = 'old' WHERE id = ")?;
    add_number(text, i as u64)
}

/// Row i, one of kind 0, is updated.
pub(crate) fn hot_updated(alloc: Global, size: u32, i: u32) -> Result<Vec<u8>, NoMemory>
    ensures { IfOk result (λ t. t.items ≡ spec.hot_updated size i) }
{
    let mut text = stamp(alloc, updated_at(size) + i as u64)?;
    add_state(&mut text, i)?;
    Ok(text)
}

/// The archive is stored as a whole.
pub(crate) fn checkpoint_made(alloc: Global) -> Result<Vec<u8>, NoMemory>
    ensures { IfOk result (λ t. t.items ≡ spec.checkpoint_made) }
{
    text_of(alloc, b"CHECKPOINT")
}

// Adds the name of the table after j renamings.
fn add_title_table(text: &mut Vec<u8>, j: u32) -> Result<(), NoMemory>
    ensures { OnOk result (text.new.items ≡ text.old.items ++ spec.title_table j) }
{
    if j == 0 {
        return add(text, b"cold_title");
    }
    add(text, b"title_")?;
    add_number(text, j as u64)
}

// A renaming of the table, from its name after j of them to that after k.
#[tactic(auto, unfolding(crate::specs::Statements::renaming))]
fn add_renaming(text: &mut Vec<u8>, j: u32, k: u32) -> Result<(), NoMemory>
    ensures { OnOk result (text.new.items ≡ text.old.items ++ spec.renaming j k) }
{
    add(text, b"RENAME TABLE ")?;
    add_title_table(text, j)?;
    add(text, b" INTO ")?;
    add_title_table(text, k)
}

// What renames the table that has been renamed j times.
fn add_title(text: &mut Vec<u8>, j: u32) -> Result<(), NoMemory>
    requires { j < 2 ^ 32 - 1 }
    ensures { OnOk result (text.new.items ≡ text.old.items ++ spec.title_given j) }
{
    add(text, b"EVOLVE ")?;
    add_renaming(text, j, j + 1)?;
    add(text, b" INVERSE ")?;
    add_renaming(text, j + 1, j)
}

/// The table that has been renamed j times is renamed.
pub(crate) fn retitled(alloc: Global, size: u32, j: u32) -> Result<Vec<u8>, NoMemory>
    requires { j < 2 ^ 32 - 1 }
    ensures { IfOk result (λ t. t.items ≡ spec.retitled size j) }
{
    let mut text = stamp(alloc, retitled_at(size) + j as u64)?;
    add_title(&mut text, j)?;
    Ok(text)
}

/// All pages are asked for.
pub(crate) fn pages_asked(alloc: Global) -> Result<Vec<u8>, NoMemory>
    ensures { IfOk result (λ t. t.items ≡ spec.pages_asked) }
{
    text_of(alloc, b"QUERY VERSION 1 SELECT id FROM page")
}

/// The pages of kind 0 at the last moment are asked for.
pub(crate) fn hot_then_asked(alloc: Global, size: u32) -> Result<Vec<u8>, NoMemory>
    ensures { IfOk result (λ t. t.items ≡ spec.hot_then_asked size) }
{
    let mut text = text_of(alloc, b"QUERY VERSION 5 SELECT id, state FROM hot AS OF ")?;
    add_number(&mut text, retitled_at(size) + 34)?;
    Ok(text)
}

/// The pages of kind 0 at all moments are asked for.
pub(crate) fn hot_asked(alloc: Global) -> Result<Vec<u8>, NoMemory>
    ensures { IfOk result (λ t. t.items ≡ spec.hot_asked) }
{
    text_of(alloc, b"QUERY VERSION 5 SELECT id, state FROM hot")
}

/// The pages of one kind are asked for, in the version that has them all in one table.
pub(crate) fn kind_asked(alloc: Global) -> Result<Vec<u8>, NoMemory>
    ensures { IfOk result (λ t. t.items ≡ spec.kind_asked) }
{
    text_of(
        alloc,
        b"QUERY VERSION 2 SELECT id, title FROM page WHERE kind = 1",
    )
}

/// The titles are asked for, by the last name of their table.
pub(crate) fn titles_asked(alloc: Global) -> Result<Vec<u8>, NoMemory>
    ensures { IfOk result (λ t. t.items ≡ spec.titles_asked) }
{
    text_of(alloc, b"QUERY VERSION 40 SELECT id, title FROM title_35")
}
