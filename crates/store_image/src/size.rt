//! How many bytes an image has, up to `u64::MAX`.

ghost use Rattle.std.specs.Prelude.{◌≡◌, ◌+◌, ◌≤◌, ℕ, Option, map, min, length};
ghost use Rattle.std.specs.List.{flat_map};
ghost use Rattle.smo_ops_types.specs.Commands.{version_of};
ghost use Rattle.command_codec_spec.specs.Encoding.{list_bytes};
ghost use Rattle.store_image_spec.specs.Encoding.{cell_bytes, stored_bytes, version_bytes};
ghost use Rattle.store_image_spec.specs.Encoding.{image_bytes};
ghost use Rattle.store_image.specs.ImageIn.{kept_line, image_in};

use command_codec_writer::{borrowed_size, name_size, op_size, ops_size};
use history_store::{CellScan, StoredTable};
use prima_base::Steps;
use smo_ops_types::Version;
use std::sync::ledger::Ledger;
use version_groups::{Groups, MadeTable};

// The bytes of entries, without their count.
#[tactic(auto, using(command_codec_writer::proofs::Lengths::lengths))]
fn cells_size<L: Ledger>(mut cells: CellScan<'_>, steps: &mut Steps<L>) -> u64
    ensures { result ≡ min (length (flat_map cell_bytes cells.entry)) u64.MAX }
{
    let mut size: u64 = 0;
    'cells: while let Some(cell) = cells.next_cell(steps) {
        size = size.saturating_add(borrowed_size(&cell.value) + 24);
    }
    size
}

// The bytes of the columns of a table, each with its count.
#[tactic(auto, using(command_codec_writer::proofs::Lengths::lengths))]
fn columns_size<L: Ledger>(store: &StoredTable, steps: &mut Steps<L>) -> u64
    ensures { result ≡ min (length (flat_map (list_bytes 8 cell_bytes) store.now.cells)) u64.MAX }
{
    let mut size: u64 = 0;
    for column in 0..store.width() {
        let cells = cells_size(store.scan_at(column), steps);
        size = size.saturating_add(cells.saturating_add(8));
    }
    size
}

// The bytes of a lifeline, and of what is kept over it.
#[tactic(auto, using(command_codec_writer::proofs::Lengths::lengths, crate::proofs::Lengths::spans_length))]
fn line_size<L: Ledger>(table: &MadeTable, steps: &mut Steps<L>) -> u64
    ensures { result ≡ min (length (stored_bytes (kept_line table.now))) u64.MAX }
{
    let keys = table.store.keys().saturating_mul(16);
    let columns = columns_size(&table.store, steps);
    keys.saturating_add(columns)
        .saturating_add(name_size(&table.name) + 16)
}

// The bytes of lifelines, without their count.
#[tactic(auto, using(command_codec_writer::proofs::Lengths::lengths))]
fn lines_size<L: Ledger>(tables: &[MadeTable], steps: &mut Steps<L>) -> u64
    ensures { result ≡ min (length (flat_map stored_bytes (map kept_line tables.now))) u64.MAX }
{
    let mut size: u64 = 0;
    for table in tables {
        size = size.saturating_add(line_size(table, steps));
    }
    size
}

// The bytes of a version.
#[tactic(auto, using(command_codec_writer::proofs::Lengths::lengths))]
fn version_size(version: &Version) -> u64
    ensures { result ≡ min (length (version_bytes (version_of version.now))) u64.MAX }
{
    let ops = op_size(&version.op).saturating_add(ops_size(&version.inverse));
    ops.saturating_add(12)
}

// The bytes of versions, without their count.
#[tactic(auto, using(command_codec_writer::proofs::Lengths::lengths))]
fn versions_size(versions: &[Version]) -> u64
    ensures { result ≡ min (length (flat_map version_bytes (map version_of versions.now))) u64.MAX }
{
    let mut size: u64 = 0;
    for version in versions {
        size = size.saturating_add(version_size(version));
    }
    size
}

/// The bytes of the image of the groups, with any last stamp.
#[tactic(auto, using(command_codec_writer::proofs::Lengths::lengths, crate::proofs::Lengths::last_length))]
pub(crate) fn image_size<L: Ledger>(groups: &Groups, steps: &mut Steps<L>) -> u64
    ensures { (last : Option ℕ) → result ≡ min (length (image_bytes (image_in groups.now last)))
        u64.MAX }
{
    let versions = versions_size(&groups.versions().list);
    let lines = lines_size(groups.stored(), steps);
    versions.saturating_add(lines).saturating_add(17)
}
