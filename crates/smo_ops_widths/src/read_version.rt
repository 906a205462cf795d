//! The widths of one version's tables, read from another.

ghost use Rattle.std.specs.Prelude.{◌≡◌, ◌≤◌, ℕ, None, IfOk, length};
ghost use Rattle.smo_ops_types.specs.Commands.{versions_of};
ghost use Rattle.smo_ops_spec.specs.Past.{no_tables};
ghost use Rattle.smo_ops_spec.specs.ValidPast.{AreVersions};
ghost use Rattle.smo_ops_widths.specs.Widths.{widths_of};
ghost use Rattle.smo_ops_widths.specs.Shown.{Show};
ghost use Rattle.smo_ops_widths.specs.AtHand.{all_widths};

use crate::way::{carry, go_back};
use crate::width::TableWidth;
use crate::widths::{TableWidths, stored_widths};
use prima_base::{Name, NoMemory};
use schema_catalog::Schema;
use smo_ops_operators::tables_at;
use smo_ops_types::Versions;
use std::alloc::Global;
use std::collections::BTreeMap;

/// The widths of the tables of version `asked`, read from version `stored`, which is not behind it.
pub(crate) fn widths_ahead(
    alloc: Global,
    versions: &Versions,
    stored: usize,
    asked: usize,
) -> Result<TableWidths, NoMemory>
    requires order { stored ≤ asked }
    requires there { asked ≤ length versions.now.list.items }
    ensures { IfOk result (λ m. Show (all_widths m)
        (widths_of (versions_of versions.now) stored asked)) }
{
    let nothing = Schema::empty(alloc);
    let mut widths = stored_widths(alloc, tables_at(&nothing, versions, stored))?;
    let mut k = stored;
    while k < asked {
        let before = tables_at(&nothing, versions, k);
        carry(alloc, before, &versions.list[k].op, &mut widths)?;
        k += 1;
    }
    Ok(widths)
}

// The widths of the tables of version `asked`, read from version `stored`, which is not before it.
fn widths_behind(
    alloc: Global,
    versions: &Versions,
    stored: usize,
    asked: usize,
) -> Result<TableWidths, NoMemory>
    requires versions { AreVersions None no_tables (versions_of versions.now) }
    requires order { asked ≤ stored }
    requires there { stored ≤ length versions.now.list.items }
    ensures { IfOk result (λ m. Show (all_widths m)
        (widths_of (versions_of versions.now) stored asked)) }
{
    let nothing = Schema::empty(alloc);
    let mut widths = stored_widths(alloc, tables_at(&nothing, versions, stored))?;
    let mut k = stored;
    while k > asked {
        k -= 1;
        let version = &versions.list[k];
        go_back(
            alloc,
            &version.op,
            &version.schema,
            &version.inverse,
            &mut widths,
        )?;
    }
    Ok(widths)
}

/// The widths of the tables of version `asked` by their names, read from version `stored`; none of a
/// table that is lost between them. Each number stops at the greatest that there is.
pub fn widths_between(
    alloc: Global,
    versions: &Versions,
    stored: usize,
    asked: usize,
) -> Result<BTreeMap<Name, TableWidth>, NoMemory>
    requires versions { AreVersions None no_tables (versions_of versions.now) }
    requires stored { stored ≤ length versions.now.list.items }
    requires asked { asked ≤ length versions.now.list.items }
    ensures { IfOk result (λ m. Show m.entries
        (widths_of (versions_of versions.now) stored asked)) }
{
    if stored <= asked {
        return widths_ahead(alloc, versions, stored, asked)?.into_map();
    }
    widths_behind(alloc, versions, stored, asked)?.into_map()
}
