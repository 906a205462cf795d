//! The tables of the exported version, with their rows.

ghost use Rattle.std.specs.Prelude.{◌≡◌, ◌<◌, ◌≤◌, ℕ, length};
ghost use Rattle.std.specs.FinMap.{len};
ghost use Rattle.smo_ops_spec.specs.Past.{Past, tables_of};
ghost use Rattle.version_export.specs.SeenTables.{IsSeenTable, AreSeenTables};

use crate::seen::{Seen, SeenFault};
use prima_base::TimedRow;
use schema_catalog::{Schema, Table};
use std::alloc::Global;

/// A table of the exported version: each row of it with its longest periods.
#[derive(Drop)]
pub struct SeenTable<'a> {
    pub table: &'a Table,
    pub rows: Vec<TimedRow<'a>>,
}

// The rows of the table at this place, in the order of names.
fn seen_table<'a, S: Seen>(
    alloc: Global,
    seen: &'a S,
    version: u32,
    schema: &'a Schema,
    place: usize,
) -> Result<SeenTable<'a>, SeenFault>
    requires version { (past : Past) → S.shows seen.now past → version ≤ length past.versions }
    requires tables { (past : Past) → S.shows seen.now past → schema.now ≡ tables_of past version }
    requires there { place < len schema.now }
    ensures is { (past : Past) → S.shows seen.now past → IsSeenTable past version place result }
{
    let table = schema.at(place);
    let rows = seen.listing(alloc, version, table.name())?;
    Ok(SeenTable { table, rows })
}

/// All tables of a version, in the order of their names. `NoInverse` exactly where one of them, or
/// a column of one, is lost at some moment; the first of these counts.
pub(crate) fn seen_tables<'a, S: Seen>(
    alloc: Global,
    seen: &'a S,
    version: u32,
    schema: &'a Schema,
) -> Result<Vec<SeenTable<'a>>, SeenFault>
    requires version { (past : Past) → S.shows seen.now past → version ≤ length past.versions }
    requires tables { (past : Past) → S.shows seen.now past → schema.now ≡ tables_of past version }
    ensures are { (past : Past) → S.shows seen.now past → AreSeenTables past version result }
{
    let mut tables = Vec::new(alloc);
    for place in 0..schema.len() {
        match seen_table(alloc, seen, version, schema, place) {
            Ok(table) => tables.push(table)?,
            Err(fault) => return Err(fault),
        }
    }
    Ok(tables)
}
