//! The first statement of an export: the EVOLVE that creates the tables.

ghost use Rattle.std.specs.Prelude.{◌≡◌, ◌++◌, codes, map, OnOk, IfOk};
ghost use Rattle.smo_parse.specs.Texts.{column_text, part_text};
ghost use Rattle.version_export.specs.Statements.{create_text, then_creates, creates_text};
ghost use Rattle.version_export.specs.Statements.{creation};
ghost use Rattle.version_export.specs.Written.{tables_seen};

use crate::line::start_text;
use crate::seen_table::SeenTable;
use prima_base::NoMemory;
use schema_catalog::Table;
use smo_parse::{put, write_columns};
use std::alloc::Global;

// A table's name and, in brackets, its columns.
fn write_table(out: &mut Vec<u8>, table: &Table) -> Result<(), NoMemory>
    ensures { OnOk result (out.new.items ≡ out.old.items
        ++ part_text table.now.0 (map column_text table.now.1)) }
{
    put(out, table.name().bytes())?;
    put(out, b" (")?;
    write_columns(out, table.columns())?;
    put(out, b")")
}

// The operator that creates a table.
fn write_create(out: &mut Vec<u8>, table: &Table) -> Result<(), NoMemory>
    ensures { OnOk result (out.new.items ≡ out.old.items ++ create_text table.now) }
{
    put(out, b"CREATE TABLE ")?;
    write_table(out, table)
}

// Those of tables, each after THEN.
fn write_more_creates(out: &mut Vec<u8>, tables: &[SeenTable<'_>]) -> Result<(), NoMemory>
    ensures { OnOk result (out.new.items ≡ out.old.items
        ++ then_creates (tables_seen tables.now)) }
{
    for table in tables {
        put(out, b" THEN ")?;
        write_create(out, table.table)?;
    }
    Ok(())
}

// Those of several tables, as a list in brackets.
fn write_list(out: &mut Vec<u8>, first: &Table, more: &[SeenTable<'_>]) -> Result<(), NoMemory>
    ensures { OnOk result (out.new.items ≡ out.old.items ++ (codes "(" ++ create_text first.now
        ++ then_creates (tables_seen more.now) ++ codes ")")) }
{
    put(out, b"(")?;
    write_create(out, first)?;
    write_more_creates(out, more)?;
    put(out, b")")
}

// That of one table alone, or those of several as a list in brackets.
fn write_creates(out: &mut Vec<u8>, tables: &[SeenTable<'_>]) -> Result<(), NoMemory>
    ensures { OnOk result (out.new.items ≡ out.old.items
        ++ creates_text (tables_seen tables.now)) }
{
    match tables {
        [] => Ok(()),
        [one] => write_create(out, one.table),
        [first, more @ ..] => write_list(out, first.table, more),
    }
}

/// The text of the EVOLVE that creates the tables at this moment.
pub(crate) fn creation_text(
    alloc: Global,
    stamp: u64,
    tables: &[SeenTable<'_>],
) -> Result<Vec<u8>, NoMemory>
    ensures { IfOk result (λ v. v.items ≡ (creation stamp (tables_seen tables.now)).1) }
{
    let mut text = start_text(alloc, stamp)?;
    put(&mut text, b"EVOLVE ")?;
    write_creates(&mut text, tables)?;
    Ok(text)
}
