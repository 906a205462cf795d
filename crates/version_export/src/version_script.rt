//! The export of a version.

ghost use Rattle.std.specs.Prelude.{◌≡◌, ◌≤◌, List, ◌∷◌, [], map, length, IfOk};
ghost use Rattle.schema_catalog.specs.Places.{NamedColumns};
ghost use Rattle.smo_ops_types.specs.Commands.{PlainBody, PlainCommand};
ghost use Rattle.smo_ops_spec.specs.History.{past_of};
ghost use Rattle.smo_ops_spec.specs.Past.{Past};
ghost use Rattle.version_export_past_spec.specs.Showing.{first_stamp, tables_in};
ghost use Rattle.version_export.specs.ByListings.{all_listed_of, commands_listed};
ghost use Rattle.version_export.specs.Exported.{exported, creating_one};
ghost use Rattle.version_export.specs.Statements.{creation, statement_of};
ghost use Rattle.version_export.specs.Whole.{IsExportable, Creates};
ghost use Rattle.version_export.specs.Written.{table_statements, tables_seen, AddsLines, AreLines};
ghost use Rattle.version_export.specs.Written.{IsExport, texts_of, fault_of_seen};
ghost use Rattle.version_export.specs.GoodLines.{IsGoodScript};

use crate::creation::creation_text;
use crate::fault::ExportFault;
use crate::line::{Line, push_line, push_row_lines};
use crate::row_turn::turns_in_order;
use crate::seen::{Seen, SeenFault};
use crate::seen_table::{SeenTable, seen_tables};
use prima_base::{FOREVER, NoMemory};
use std::alloc::Global;

// The stamp of version 1; the end of time where there is none.
fn stamp_of_first<S: Seen>(seen: &S) -> u64
    ensures { (past : Past) → S.shows seen.now past → result ≡ first_stamp past }
{
    match seen.stamp_of(1) {
        Some(stamp) => stamp,
        None => FOREVER,
    }
}

// Adds the line of the EVOLVE that creates the tables.
fn push_creation(
    alloc: Global,
    lines: &mut Vec<Line>,
    first: u64,
    tables: &[SeenTable<'_>],
) -> Result<(), ExportFault>
    ensures { AddsLines (creation first (tables_seen tables.now) ∷ []) lines.old.items
        lines.new.items result }
{
    match creation_text(alloc, first, tables) {
        Ok(text) => push_line(lines, first, text),
        Err(NoMemory) => Err(ExportFault::NoMemory),
    }
}

// Adds the lines of what ends and begins after the first moment.
fn push_rows(
    alloc: Global,
    lines: &mut Vec<Line>,
    first: u64,
    tables: &[SeenTable<'_>],
) -> Result<(), ExportFault>
    ensures { AddsLines (map statement_of (commands_listed first (all_listed_of tables.now)))
        lines.old.items lines.new.items result }
{
    match turns_in_order(alloc, first, tables) {
        Ok(turns) => push_row_lines(alloc, lines, &turns),
        Err(NoMemory) => Err(ExportFault::NoMemory),
    }
}

// Adds all lines; there are none where there is no table.
fn push_tables(
    alloc: Global,
    lines: &mut Vec<Line>,
    first: u64,
    tables: &[SeenTable<'_>],
) -> Result<(), ExportFault>
    ensures { AddsLines (table_statements first tables.now) lines.old.items lines.new.items
        result }
{
    match tables {
        [] => Ok(()),
        [_, ..] => match push_creation(alloc, lines, first, tables) {
            Ok(()) => push_rows(alloc, lines, first, tables),
            Err(fault) => Err(fault),
        },
    }
}

// The lines of the tables.
fn lines_of_tables(
    alloc: Global,
    first: u64,
    tables: &[SeenTable<'_>],
) -> Result<Vec<Line>, ExportFault>
    ensures { AreLines (table_statements first tables.now) result }
{
    let mut lines = Vec::new(alloc);
    match push_tables(alloc, &mut lines, first, tables) {
        Ok(()) => Ok(lines),
        Err(fault) => Err(fault),
    }
}

// The fault of the export, by that of seeing its tables.
fn fault_of_seen(fault: SeenFault) -> ExportFault
    ensures { result ≡ fault_of_seen fault }
{
    match fault {
        SeenFault::NoInverse(lost, kind) => ExportFault::NoInverse(lost, kind),
        SeenFault::NoMemory => ExportFault::NoMemory,
    }
}

// The lines of a version.
fn lines_of_version<S: Seen>(
    alloc: Global,
    seen: &S,
    version: u32,
) -> Result<Vec<Line>, ExportFault>
    ensures is { (past : Past) → S.shows seen.now past → IsExport past version result }
{
    let newest = seen.newest();
    match seen.schema(version) {
        Some(schema) => match seen_tables(alloc, seen, version, schema) {
            Ok(tables) => lines_of_tables(alloc, stamp_of_first(seen), &tables),
            Err(fault) => Err(fault_of_seen(fault)),
        },
        None => Err(ExportFault::NoVersion(version, newest)),
    }
}

/// The script that rebuilds the whole history as this version shows it: its lines, each a statement
/// with its `;`. The first creates the tables; each further one ends and begins rows at a moment.
/// `NoVersion`, `NoInverse` and `TooLong`, in this order, exactly where the definition says so. The
/// script, read and run on an empty archive, answers each query on its version 1 as the archive
/// does on this version.
pub fn export<S: Seen>(alloc: Global, seen: &S, version: u32) -> Result<Vec<Line>, ExportFault>
    ensures is { (past : Past) → S.shows seen.now past → IsExport past version result }
    ensures good { (history : List PlainCommand) → S.shows seen.now (past_of history)
        → IsExportable history version → (creating : List NamedColumns → PlainBody)
        → 1 ≤ length (tables_in (past_of history) version)
        → Creates creating (past_of history) version → IfOk result (λ lines.
        IsGoodScript (exported creating (past_of history) version) (past_of history) version
        (texts_of lines.items)) }
    ensures one { (history : List PlainCommand) → S.shows seen.now (past_of history)
        → IsExportable history version → (t : NamedColumns)
        → tables_in (past_of history) version ≡ t ∷ [] → IfOk result (λ lines.
        IsGoodScript (exported creating_one (past_of history) version) (past_of history) version
        (texts_of lines.items)) }
{
    lines_of_version(alloc, seen, version)
}
