//! The versions of an archive, and how wide their tables are.
ghost use Rattle.std.specs.Prelude.{◌≡◌, None};
ghost use Rattle.smo_ops_types.specs.Commands.{versions_of};
ghost use Rattle.smo_ops_spec.specs.Past.{no_tables};
ghost use Rattle.smo_ops_spec.specs.ValidPast.{AreVersions};

use archive_core_state::ArchiveState;
use prima_base::{FOREVER, Name, NoMemory};
use smo_ops::Versions;
use smo_ops_widths::{TableWidth, widths_between};
use std::alloc::Global;
use std::collections::BTreeMap;

// The versions of the archive, each of which has evolved from the one before.
fn evolved(archive: &ArchiveState) -> &Versions
    ensures valid { AreVersions None no_tables (versions_of result.now) }
    ensures same { result.now.list.items ≡ archive.now.groups.versions }
{
    // The archive represents a past.
    archive.last();
    archive.groups().versions()
}

/// How many versions there are, version 0 among them.
pub(crate) fn version_count(archive: &ArchiveState) -> usize {
    archive.groups().versions().list.len().saturating_add(1)
}

/// The moment from which on a version is in force, and the end of time where there is none.
pub(crate) fn begin_of(archive: &ArchiveState, version: usize) -> u64 {
    if version == 0 {
        return 0;
    }
    match archive.groups().versions().list.get(version - 1) {
        Some(version) => version.stamp,
        None => FOREVER,
    }
}

// The widths of the tables of version `asked`, read from version `stored`; none where there is no
// such version.
fn widths_of(
    alloc: Global,
    archive: &ArchiveState,
    stored: usize,
    asked: usize,
) -> Result<BTreeMap<Name, TableWidth>, NoMemory> {
    let versions = evolved(archive);
    let count = versions.list.len();
    if stored > count || asked > count {
        return Ok(BTreeMap::new(alloc));
    }
    widths_between(alloc, versions, stored, asked)
}

/// The widths of the tables of version `asked`, read from version 0, from version 1, and so on.
pub(crate) fn widths_from_each(
    alloc: Global,
    archive: &ArchiveState,
    asked: usize,
) -> Result<Vec<BTreeMap<Name, TableWidth>>, NoMemory> {
    let mut all = Vec::new(alloc);
    for stored in 0..version_count(archive) {
        all.push(widths_of(alloc, archive, stored, asked)?)?;
    }
    Ok(all)
}
