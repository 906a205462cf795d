//! Writing an image.

ghost use Rattle.std.specs.Prelude.{◌≡◌, ◌++◌, ◌<◌, ◌^◌, ◌∷◌, [], map, length, None, IfOk, OnOk};
ghost use Rattle.std.specs.Prelude.{All, replicate};
ghost use Rattle.std.specs.List.{flat_map, AllByRecursion};
ghost use Rattle.prima_base.specs.Columns.{IsValid};
ghost use Rattle.prima_base.specs.Order.{shown};
ghost use Rattle.history_store.specs.Scans.{seen_cell};
ghost use Rattle.history_store.specs.Store.{IsStore};
ghost use Rattle.smo_ops_types.specs.Commands.{version_of};
ghost use Rattle.smo_ops_spec.specs.ValidPast.{AreVersions};
ghost use Rattle.smo_ops_spec.specs.Past.{Past, no_tables};
ghost use Rattle.command_codec_spec.specs.Encoding.{list_bytes};
ghost use Rattle.store_image_spec.specs.Encoding.{span_bytes, cell_bytes, line_bytes, stored_bytes};
ghost use Rattle.store_image_spec.specs.Encoding.{last_bytes, version_bytes, image_bytes};
ghost use Rattle.version_groups.specs.Groups.{versions_in};
ghost use Rattle.version_groups.specs.Covering.{line_of};
ghost use Rattle.version_groups.specs.Representation.{Represents};
ghost use Rattle.store_image_spec.specs.Images.{VersionsNamed};
ghost use Rattle.store_image.specs.ImageIn.{kept_line, image_in, CanBeWritten, IsNamed, AreValid};
ghost use Rattle.store_image.specs.ImageIn.{ColumnHolds, TableHolds, GroupsHold, IsImageOf};

use crate::an_image_shows_its_archive;
use crate::size::image_size;
use command_codec_writer::{
    put, put_u32, put_u64, write_borrowed, write_name, write_op, write_ops,
};
use history_store::{CellEntry, CellScan, KeyScan, StoredTable};
use prima_base::{NoMemory, Period, Steps};
use prima_base_counter::fresh_steps;
use smo_ops_types::Version;
use std::alloc::Global;
use std::marker::Brand;
use std::sync::ledger::{Blank, Ledger};
use store_image_reader::last_number;
use version_groups::{Groups, MadeTable};

// A start and an end.
fn put_period(out: &mut Vec<u8>, period: Period) -> Result<(), NoMemory>
    ensures { OnOk result (out.new.items ≡ out.old.items ++ span_bytes period) }
{
    put_u64(out, period.start())?;
    put_u64(out, period.end())?;
    Ok(())
}

// Keys, without their count.
fn put_each_key<L: Ledger>(
    out: &mut Vec<u8>,
    mut keys: KeyScan<'_>,
    steps: &mut Steps<L>,
) -> Result<(), NoMemory>
    ensures { OnOk result (out.new.items ≡ out.old.items
        ++ flat_map span_bytes (map (λ k. k.period) keys.entry)) }
{
    'keys: while let Some(key) = keys.next_key(steps) {
        put_period(out, key.period)?;
    }
    Ok(())
}

// The keys of a table, with their count before them.
fn put_keys<L: Ledger>(
    out: &mut Vec<u8>,
    store: &StoredTable,
    steps: &mut Steps<L>,
) -> Result<(), NoMemory>
    ensures bytes { OnOk result (out.new.items ≡ out.old.items
        ++ list_bytes 8 span_bytes store.now.keys) }
    ensures few { OnOk result (length store.now.keys < 2 ^ 64) }
    ensures valid { OnOk result (IsStore store.now) }
{
    put_u64(out, store.keys())?;
    put_each_key(out, store.scan_keys(), steps)?;
    Ok(())
}

// An entry.
fn put_cell(out: &mut Vec<u8>, cell: &CellEntry<'_>) -> Result<(), NoMemory>
    requires { IsValid (shown cell.now.value) }
    ensures { OnOk result (out.new.items ≡ out.old.items ++ cell_bytes (seen_cell cell.now)) }
{
    put_u64(out, cell.id)?;
    write_borrowed(out, &cell.value)?;
    put_period(out, cell.period)?;
    Ok(())
}

// Entries, without their count.
fn put_each_cell<L: Ledger>(
    out: &mut Vec<u8>,
    mut cells: CellScan<'_>,
    steps: &mut Steps<L>,
) -> Result<(), NoMemory>
    ensures bytes { OnOk result (out.new.items ≡ out.old.items ++ flat_map cell_bytes cells.entry) }
    ensures valid { OnOk result (AreValid cells.entry) }
{
    'cells: while let Some(cell) = cells.next_cell(steps) {
        put_cell(out, &cell)?;
    }
    Ok(())
}

// The entries of the columns of a table, each with their count before them.
fn put_columns<L: Ledger>(
    out: &mut Vec<u8>,
    store: &StoredTable,
    steps: &mut Steps<L>,
) -> Result<(), NoMemory>
    ensures bytes { OnOk result (out.new.items ≡ out.old.items
        ++ flat_map (list_bytes 8 cell_bytes) store.now.cells) }
    ensures holds { OnOk result (All ColumnHolds store.now.cells) }
{
    for column in 0..store.width() {
        put_u64(out, store.entries_at(column))?;
        put_each_cell(out, store.scan_at(column), steps)?;
    }
    Ok(())
}

// A lifeline's first version, its last, and its table.
fn put_line(out: &mut Vec<u8>, table: &MadeTable) -> Result<(), NoMemory>
    ensures { OnOk result (out.new.items ≡ out.old.items ++ line_bytes (line_of table.now)) }
{
    put_u32(out, table.first)?;
    put_u32(out, last_number(table.last))?;
    write_name(out, &table.name)?;
    Ok(())
}

// A lifeline, and what is kept over it.
fn put_stored<L: Ledger>(
    out: &mut Vec<u8>,
    table: &MadeTable,
    steps: &mut Steps<L>,
) -> Result<(), NoMemory>
    ensures bytes { OnOk result (out.new.items ≡ out.old.items
        ++ stored_bytes (kept_line table.now)) }
    ensures holds { OnOk result (TableHolds table.now) }
{
    put_line(out, table)?;
    put_keys(out, &table.store, steps)?;
    put_columns(out, &table.store, steps)?;
    Ok(())
}

// Lifelines, without their count.
fn put_each_stored<L: Ledger>(
    out: &mut Vec<u8>,
    tables: &[MadeTable],
    steps: &mut Steps<L>,
) -> Result<(), NoMemory>
    ensures bytes { OnOk result (out.new.items ≡ out.old.items
        ++ flat_map stored_bytes (map kept_line tables.now)) }
    ensures holds { OnOk result (All TableHolds tables.now) }
{
    for table in tables {
        put_stored(out, table, steps)?;
    }
    Ok(())
}

// Lifelines, with their count before them.
fn put_all_stored<L: Ledger>(
    out: &mut Vec<u8>,
    tables: &[MadeTable],
    steps: &mut Steps<L>,
) -> Result<(), NoMemory>
    ensures bytes { OnOk result (out.new.items ≡ out.old.items
        ++ list_bytes 4 stored_bytes (map kept_line tables.now)) }
    ensures holds { OnOk result (All TableHolds tables.now) }
{
    // An archive has at most 1,024 lifelines (`lifelines_are_few` of version_groups); for a list
    // with so many that their count does not fit no machine has memory.
    let Ok(count) = u32::try_from(tables.len()) else {
        return Err(NoMemory);
    };
    put_u32(out, count)?;
    put_each_stored(out, tables, steps)
}

// A version.
fn put_version(out: &mut Vec<u8>, version: &Version) -> Result<(), NoMemory>
    requires { CanBeWritten (version_of version.now) }
    ensures bytes { OnOk result (out.new.items ≡ out.old.items
        ++ version_bytes (version_of version.now)) }
    ensures named { OnOk result (IsNamed (version_of version.now)) }
{
    put_u64(out, version.stamp)?;
    write_op(out, &version.op)?;
    write_ops(out, &version.inverse)?;
    Ok(())
}

// Versions, without their count.
fn put_each_version(out: &mut Vec<u8>, versions: &[Version]) -> Result<(), NoMemory>
    requires { AllByRecursion CanBeWritten (map version_of versions.now) }
    ensures bytes { OnOk result (out.new.items ≡ out.old.items
        ++ flat_map version_bytes (map version_of versions.now)) }
    ensures named { OnOk result (VersionsNamed (map version_of versions.now)) }
{
    for version in versions {
        put_version(out, version)?;
    }
    Ok(())
}

// The versions of the groups, with their count before them.
fn put_versions(out: &mut Vec<u8>, groups: &Groups) -> Result<(), NoMemory>
    requires { AllByRecursion CanBeWritten (versions_in groups.now) }
    ensures bytes { OnOk result (out.new.items ≡ out.old.items
        ++ list_bytes 4 version_bytes (versions_in groups.now)) }
    ensures named { OnOk result (VersionsNamed (versions_in groups.now)) }
{
    put_u32(out, groups.newest())?;
    put_each_version(out, &groups.versions().list)
}

// The last stamp.
fn put_last(out: &mut Vec<u8>, last: Option<u64>) -> Result<(), NoMemory>
    ensures { OnOk result (out.new.items ≡ out.old.items ++ last_bytes last) }
{
    match last {
        None => {
            put(out, &[0])?;
            put_u64(out, 0)?;
            Ok(())
        }
        Some(stamp) => {
            put(out, &[1])?;
            put_u64(out, stamp)?;
            Ok(())
        }
    }
}

// The bytes of the image of the groups behind so many free ones, with a counter of the ledger.
fn image_counted<L: Ledger>(
    alloc: Global,
    groups: &Groups,
    last: Option<u64>,
    front: usize,
    blank: Blank,
) -> Result<Vec<u8>, NoMemory>
    requires versions { AreVersions None no_tables (versions_in groups.now) }
    requires name { blank.name ≡ L.name }
    requires parts { blank.parts ≡ L.parts }
    requires some { 0 < blank.parts }
    ensures bytes { IfOk result (λ v. v.items
        ≡ replicate front 0 ++ image_bytes (image_in groups.now last)) }
    ensures holds { OnOk result (GroupsHold groups.now) }
{
    let mut steps: Steps<L> = fresh_steps(blank);
    let size = image_size(groups, &mut steps);
    let mut out = vec![in alloc; 0u8; front]?;
    out.reserve((size as usize).saturating_add(1))?;
    put_last(&mut out, last)?;
    put_versions(&mut out, groups)?;
    put_all_stored(&mut out, groups.stored(), &mut steps)?;
    Ok(out)
}

/// The bytes of the image of the groups, with this last stamp. The versions are those of an
/// archive: each is accepted after the one before. What was written is valid: the tables, their
/// values, and the names and constants in the versions' operators. The image of groups that
/// represent a past with this last stamp shows just that past, and has as many bytes as its
/// versions and sizes say. The bytes are counted first, and written into one buffer, which has
/// `front` bytes before them that are left free, each 0, and room for one byte after them. The one
/// error is `NoMemory`, where memory runs out.
pub fn image_of(
    alloc: Global,
    groups: &Groups,
    last: Option<u64>,
    front: usize,
) -> Result<Vec<u8>, NoMemory>
    requires { AreVersions None no_tables (versions_in groups.now) }
    ensures bytes { IfOk result (λ v. v.items
        ≡ replicate front 0 ++ image_bytes (image_in groups.now last)) }
    ensures holds { OnOk result (GroupsHold groups.now) }
    ensures image { (past : Past) → Represents groups.now past → last ≡ past.last
        → OnOk result (IsImageOf past (image_in groups.now last)) }
{
    let bytes = image_counted::<Brand>(alloc, groups, last, front, Blank::new(1))?;
    an_image_shows_its_archive();
    Ok(bytes)
}
