//! The versions of an archive: which one is in force at a moment, and the pieces over one of them
//! that stand for a table of another. The archive has table `t`, which is `u` from version 2 on,
//! begun at 9.
ghost use Rattle.std.specs.Prelude.{◌≡◌, ◌≤◌, true, [], None, vec_len};
ghost use Rattle.std.specs.FinMap.{contains_key};
ghost use Rattle.cond_expr.specs.Seen.{test};
ghost use Rattle.cond_expr.specs.Trees.{always};
ghost use Rattle.smo_ops_types.specs.Commands.{versions_of};
ghost use Rattle.smo_ops_spec.specs.Past.{no_tables};
ghost use Rattle.smo_ops_spec.specs.ValidPast.{AreVersions};
ghost use Rattle.piece_ir_spec.specs.Beginnings.{asking};
ghost use Rattle.piece_ir_spec.specs.UnfoldedPieces.{MayBeAsked};

use archive_core::ArchiveState;
use cond_expr::Cond;
use piece_ir::Piece;
use prima_base::{FOREVER, Name};
use rewrite::{RewriteFault, pieces_of};
use rewrite_rules::{Rule, RuleBook};
use schema_catalog::Schema;
use smo_ops::Versions;
use std::alloc::Global;
use std::test::Fail;

// Moments, and the version that is in force at each.
const IN_FORCE: [(u64, u32); 5] = [(0, 0), (1, 1), (8, 1), (9, 2), (FOREVER, 2)];

/// A version is in force from its own stamp on, and the newest at the end of time.
pub(crate) fn versions_in_force(archive: &ArchiveState) -> Result<(), Fail> {
    for (moment, version) in IN_FORCE {
        if archive.groups().version_at(moment) != version {
            return Err(Fail::new("a version is in force from its stamp on"));
        }
    }
    Ok(())
}

// The versions of the archive, each of which has evolved from the one before.
fn evolved(archive: &ArchiveState) -> &Versions
    ensures valid { AreVersions None no_tables (versions_of result.now) }
    ensures same { result.now.list.items ≡ archive.now.groups.versions }
{
    // The archive represents a past.
    archive.last();
    archive.groups().versions()
}

fn is_there(schema: &Schema, table: &Name) -> bool
    ensures { result ≡ contains_key schema.now table.now }
{
    match schema.table(table) {
        Some(_) => true,
        None => false,
    }
}

// Whether the table is in the version, so that all its rows may be asked for.
fn may_be_asked(
    archive: &ArchiveState,
    versions: &Versions,
    asked: u32,
    table: &Name,
    cond: &Cond,
    columns: &[Name],
) -> bool
    requires valid { AreVersions None no_tables (versions_of versions.now) }
    requires same { versions.now.list.items ≡ archive.now.groups.versions }
    requires there { asked ≤ vec_len versions.now.list }
    requires cond { test cond.now ≡ always }
    requires columns { columns.now ≡ [] }
    ensures { result ≡ true → MayBeAsked (versions_of versions.now) asked table.now
        (asking (test cond.now) columns.now) }
{
    let schema = archive.groups().schema_of(asked);
    is_there(schema, table)
}

// The pieces over version `stored` that stand for all rows of a table of version `asked`, with none
// of its columns; none where there is no such version or table.
fn pieces_over<R: Rule>(
    alloc: Global,
    archive: &ArchiveState,
    book: &RuleBook<R>,
    stored: u32,
    asked: u32,
    table: &Name,
) -> Result<Option<Vec<Piece>>, RewriteFault> {
    let versions = evolved(archive);
    if stored as usize > versions.list.len() {
        return Ok(None);
    }
    if asked as usize > versions.list.len() {
        return Ok(None);
    }
    let cond = Cond::True;
    if !may_be_asked(archive, versions, asked, table, &cond, &[]) {
        return Ok(None);
    }
    let pieces = pieces_of(alloc, book, versions, stored, asked, table, &cond, &[])?;
    Ok(Some(pieces))
}

// Whether there is one piece, over one table with this name.
fn is_over(pieces: &[Piece], table: &[u8]) -> bool {
    let [piece] = pieces else {
        return false;
    };
    match piece.atoms.as_slice() {
        [atom] => atom.bytes() == table,
        _ => false,
    }
}

/// The table of each version is that of the other, under the name that it has there.
pub(crate) fn tables_over_versions<R: Rule>(
    alloc: Global,
    archive: &ArchiveState,
    book: &RuleBook<R>,
) -> Result<(), Fail> {
    let t = Name::new(alloc, b"t")?;
    let u = Name::new(alloc, b"u")?;
    let Ok(Some(earlier)) = pieces_over(alloc, archive, book, 1, 2, &u) else {
        return Err(Fail::new("u is read from version 1"));
    };
    let Ok(Some(later)) = pieces_over(alloc, archive, book, 2, 1, &t) else {
        return Err(Fail::new("t is read from version 2"));
    };
    if is_over(&earlier, b"t") && is_over(&later, b"u") {
        return Ok(());
    }
    Err(Fail::new("one piece stands for the table, under its other name"))
}
