//! The lifelines that versions give.

ghost use Rattle.std.specs.Prelude.{◌≡◌, ◌+◌, ◌++◌, ◌<◌, ◌^◌, map, length, IfOk, OnOk};
ghost use Rattle.std.specs.List.{filter};
ghost use Rattle.std.specs.FinMap.{entries};
ghost use Rattle.prima_base.specs.Columns.{Column};
ghost use Rattle.smo_ops_types.specs.Commands.{version_of, versions_of};
ghost use Rattle.smo_ops_types.specs.Operators.{operator_of};
ghost use Rattle.smo_ops_spec.specs.Past.{no_tables};
ghost use Rattle.schema_catalog.specs.Tables.{Tables};
ghost use Rattle.smo_ops_versions_spec.specs.Lifelines.{line_after, line_begun, lifelines_after};
ghost use Rattle.smo_ops_versions_spec.specs.Lifelines.{lifelines_of};
ghost use Rattle.store_image_reader.specs.Seen.{line_seen};
ghost use Rattle.smo_ops_operators.specs.Names.{is_one_of};
ghost use Rattle.store_image_reader.specs.Due.{begun_of};

use prima_base::{ColType, Name, NoMemory};
use schema_catalog::{Schema, Table};
use smo_ops_operators::{Made, consumed, made};
use smo_ops_types::{Version, Versions};
use std::alloc::Global;

/// A lifeline of a table, from its first version to its last, none while it lives, and the columns
/// that it has in each of them, in the order of their names.
#[derive(Clone, Copy)]
pub struct DueLine<'a> {
    pub table: &'a Name,
    pub first: u32,
    pub last: Option<u32>,
    pub columns: &'a [(Name, ColType)],
}

// The lifeline, which ends with a version where it lives and its table is one of these.
fn after_names<'a>(line: &DueLine<'a>, names: Made<'_>, version: u32) -> Option<u32>
    ensures { result ≡ (line_after (is_one_of names.entry) version (line_seen line.now)).last }
{
    match line.last {
        Some(last) => Some(last),
        None if names.has(line.table) => Some(version),
        None => None,
    }
}

// Ends the lifelines that live of these tables with a version.
fn end_lines(lines: &mut [DueLine<'_>], names: Made<'_>, version: u32)
    ensures { map line_seen lines.new ≡ map (line_after (is_one_of names.entry) version)
        (map line_seen lines.old) }
{
    for i in 0..lines.len() {
        lines[i].last = after_names(&lines[i], names, version);
    }
}

// Begins a lifeline with a version, where the table has one of these names.
fn begin_line<'a>(
    lines: &mut Vec<DueLine<'a>>,
    table: &'a Table,
    names: Made<'_>,
    version: u32,
) -> Result<(), NoMemory>
    ensures { OnOk result (map line_seen lines.new.items ≡ map line_seen lines.old.items
        ++ begun_of (is_one_of names.entry) version table.now) }
{
    if names.has(table.name()) {
        lines.push(DueLine {
            table: table.name(),
            first: version,
            last: None,
            columns: table.columns(),
        })?;
    }
    Ok(())
}

// Begins a lifeline with a version for each table of these names that its schema has, in the order
// of names.
fn begin_lines<'a>(
    lines: &mut Vec<DueLine<'a>>,
    schema: &'a Schema,
    names: Made<'_>,
    version: u32,
) -> Result<(), NoMemory>
    ensures { OnOk result (map line_seen lines.new.items
        ≡ map line_seen lines.old.items ++ map (line_begun version)
        (filter (λ t. is_one_of names.entry t.0) (entries schema.now))) }
{
    for place in 0..schema.len() {
        begin_line(lines, schema.at(place), names, version)?;
    }
    Ok(())
}

// The lifelines after a version, whose number is one more than this.
fn put_version<'a>(
    lines: &mut Vec<DueLine<'a>>,
    version: &'a Version,
    before: u32,
) -> Result<(), NoMemory>
    requires { before + 1 < 2 ^ 32 }
    ensures { (tables : Tables) → OnOk result
        (map line_seen lines.new.items ≡ lifelines_after tables before
        (map line_seen lines.old.items) (version_of version.now)) }
{
    end_lines(lines, consumed(&version.op), before);
    begin_lines(lines, &version.schema, made(&version.op), before + 1)
}

/// The lifelines that the versions give, by first version and then name. It goes for each version
/// once over the lifelines before it and over its tables. The one error is `NoMemory`, where memory
/// runs out.
pub fn due_lines(alloc: Global, versions: &Versions) -> Result<Vec<DueLine<'_>>, NoMemory>
    requires { length versions.now.list.items < 2 ^ 32 }
    ensures { IfOk result (λ lines. map line_seen lines.items
        ≡ lifelines_of (versions_of versions.now)) }
{
    let mut lines = Vec::new(alloc);
    for (before, version) in versions.list.iter().enumerate() {
        put_version(&mut lines, version, before as u32)?;
    }
    Ok(lines)
}
