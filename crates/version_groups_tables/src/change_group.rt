//! The changes of a command, grouped by the tables that they are of.

ghost use Rattle.std.specs.Prelude.{◌≡◌, ◌<◌, ◌++◌, [], ◌∷◌, length, slice_index_or, slice_set};
ghost use Rattle.std.specs.Prelude.{IfOk, OnOk};
ghost use Rattle.schema_catalog.specs.Tables.{table_names};
ghost use Rattle.smo_ops_types.specs.Changes.{change_of, changes_of};
ghost use Rattle.smo_ops.specs.TablePlaces.{StandAt};
ghost use Rattle.version_groups_tables.specs.Grouping.{by_table, grouped};

use prima_base::NoMemory;
use schema_catalog::Schema;
use smo_ops::Change;
use std::alloc::Global;

// A group of no changes for each table of the schema.
fn empty_groups<'a>(alloc: Global, schema: &Schema) -> Result<Vec<Vec<&'a Change>>, NoMemory>
    ensures { IfOk result (λ groups. grouped groups.items ≡ by_table (table_names schema.now) []) }
{
    let tables = schema.len();
    let mut groups = Vec::with_capacity(alloc, tables)?;
    for _ in 0..tables {
        groups.push(Vec::new(alloc))?;
    }
    Ok(groups)
}

// Puts the change after those of the group at this place.
fn put_change<'a>(
    groups: &mut Vec<Vec<&'a Change>>,
    place: usize,
    change: &'a Change,
) -> Result<(), NoMemory>
    requires { place < length groups.old.items }
    ensures { OnOk result (grouped groups.new.items ≡ slice_set (grouped groups.old.items) place
        (slice_index_or (grouped groups.old.items) place [] ++ change_of change.now ∷ [])) }
{
    groups[place].push(change)?;
    Ok(())
}

/// For each table of the schema, in the order of their names, the changes that are of it, in order.
/// Of each change it is told where its table stands. The one error is `NoMemory`, where memory runs
/// out.
pub(crate) fn changes_by_table<'a>(
    alloc: Global,
    schema: &Schema,
    changes: &'a [Change],
    places: &[usize],
) -> Result<Vec<Vec<&'a Change>>, NoMemory>
    requires { StandAt schema.now (changes_of changes.now) places.now }
    ensures { IfOk result (λ groups. grouped groups.items
        ≡ by_table (table_names schema.now) (changes_of changes.now)) }
{
    let mut groups = empty_groups(alloc, schema)?;
    for (i, change) in changes.iter().enumerate() {
        put_change(&mut groups, places[i], change)?;
    }
    Ok(groups)
}
