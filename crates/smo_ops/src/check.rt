ghost use Rattle.std.specs.Prelude.{◌≡◌, ◌++◌, ◌+◌, ◌<◌, ◌≤◌, ◌^◌, ◌∷◌, [], ◌⊎◌, length, Some};
ghost use Rattle.std.specs.Prelude.{None, IsOkUnless, IsErrOf, IfOk, OnOk};
ghost use Rattle.prima_base.specs.Columns.{AreColumns, names_of};
ghost use Rattle.smo_ops_spec.specs.First.{first_refusal};
ghost use Rattle.cond_expr.specs.Seen.{test};
ghost use Rattle.cond_expr.specs.Sizes.{test_nodes};
ghost use Rattle.cond_expr.specs.Faults.{test_references};
ghost use Rattle.prima_base.specs.declared.refusal.Refusal.{Refusal as OneRefusal};
ghost use Rattle.schema_catalog.specs.Tables.{IsSchema, name_at};
ghost use Rattle.smo_ops_types.specs.Commands.{changing};
ghost use Rattle.smo_ops_spec.specs.Counts.{first_excess};
ghost use Rattle.smo_ops_types.specs.Changes.{insertion, update, change_of, changes_of, sets_of};
ghost use Rattle.smo_ops_types.specs.Changes.{table_of};
ghost use Rattle.smo_ops_spec.specs.Preconditions.{AreNarrow};
ghost use Rattle.prima_base.specs.Faults.{IsTested};
ghost use Rattle.prima_base.specs.declared.fault.CallFault.TheVariants.{Refused};
ghost use Rattle.prima_base.specs.declared.fault.CallFault.TheVariants.{NoMemory as OutOfMemory};
ghost use Rattle.smo_ops_spec.specs.Checks.{IsSmall, AreSmall, pair_names, name_faults};
ghost use Rattle.smo_ops_spec.specs.Checks.{missing_fault, cell_faults, reference_fault};
ghost use Rattle.smo_ops_spec.specs.Checks.{test_fault};
ghost use Rattle.smo_ops_spec.specs.Checks.{tests_after, change_fault, changes_fault, sets_nodes};
ghost use Rattle.smo_ops_spec.specs.Checks.{change_nodes};
ghost use Rattle.smo_ops.specs.TablePlaces.{StandAt};
ghost use Rattle.smo_ops.specs.Walks.{IsWalked};

use crate::type_check::{
    check_all_references, check_sets, check_test_references, check_test_types,
};
use cond_expr::{Cond, Expr, value_kind};
use prima_base::{ColType, Name, NoMemory, Refusal, Value};
use schema_catalog::Schema;
use smo_ops_operators::{OwnColumns, has_name, type_in};
use smo_ops_types::{Change, ChangeFault};
use std::alloc::Global;

/// What checking an accepted change finds: where its table stands in the schema, from 0 in the
/// order of names, and the number of the node after the change.
#[derive(Clone, Copy)]
pub struct CheckedChange {
    pub place: usize,
    pub next: u32,
}

// Of each name, in order: whether it stood before, and whether it is unknown. What stood before is
// known, so at most one name more than there are columns is looked at.
fn check_names<T>(
    table: &Name,
    columns: &[(Name, ColType)],
    pairs: &[(Name, T)],
) -> Result<(), ChangeFault>
    ensures { IsTested (first_refusal (name_faults table.now columns.now (pair_names pairs.now)))
        result }
{
    for (i, (name, _)) in pairs.iter().enumerate() {
        if has_name(&pairs[..i], name) {
            return Err(ChangeFault::Refused(Refusal::ColumnExists(table.copy()?, name.copy()?)));
        }
        if !has_name(columns, name) {
            return Err(ChangeFault::Refused(Refusal::NoColumn(name.copy()?)));
        }
    }
    Ok(())
}

// The first column, in name order, that is not named.
fn check_missing(
    table: &Name,
    columns: &[(Name, ColType)],
    cells: &[(Name, Value)],
) -> Result<(), ChangeFault>
    ensures { IsTested (missing_fault table.now columns.now (pair_names cells.now)) result }
{
    for (column, _) in columns {
        if !has_name(cells, column) {
            return Err(ChangeFault::Refused(Refusal::ColumnMissing(table.copy()?, column.copy()?)));
        }
    }
    Ok(())
}

// Each value is of its column's type; the first one is node `at`.
fn check_cells(
    columns: &[(Name, ColType)],
    cells: &[(Name, Value)],
    at: u32,
) -> Result<(), ChangeFault>
    requires { at + length cells.now < 2 ^ 32 }
    ensures { IsTested (first_refusal (cell_faults columns.now at cells.now)) result }
{
    for (i, (name, value)) in cells.iter().enumerate() {
        if type_in(columns, name) != Some(value_kind(value)) {
            return Err(ChangeFault::Refused(Refusal::WrongType(at + i as u32)));
        }
    }
    Ok(())
}

// The tests of an INSERT; the number of the node after it.
fn check_insert(
    table: &Name,
    columns: &[(Name, ColType)],
    cells: &[(Name, Value)],
    at: u32,
) -> Result<u32, ChangeFault>
    requires columns { AreColumns columns.now }
    requires narrow { length columns.now ≤ 32 }
    requires place { at < 2 ^ 31 }
    ensures { IsWalked (tests_after columns.now (insertion table.now cells.now) at)
        (at + length cells.now) result }
{
    check_names(table, columns, cells)?;
    check_missing(table, columns, cells)?;
    check_cells(columns, cells, at)?;
    Ok(at + cells.len() as u32)
}

// The tests of a DELETE; the number of the node after it.
fn check_delete(own: &OwnColumns<'_>, cond: &Cond, at: u32) -> Result<u32, ChangeFault>
    requires small { test_nodes (test cond.now) ≤ 256 }
    requires place { at < 2 ^ 31 }
    ensures { IsWalked (reference_fault own.now (test_references (test cond.now))
        ∷ test_fault own.now at (test cond.now) ∷ []) (at + test_nodes (test cond.now)) result }
{
    check_test_references(own, cond)?;
    let next = check_test_types(own, cond, at)?;
    Ok(next)
}

// The tests of an UPDATE; the number of the node after it.
fn check_update(
    own: &OwnColumns<'_>,
    table: &Name,
    sets: &[(Name, Expr)],
    cond: &Cond,
    at: u32,
) -> Result<u32, ChangeFault>
    requires columns { AreColumns own.now }
    requires narrow { length own.now ≤ 32 }
    requires sets { AreSmall (sets_of sets.now) }
    requires test { test_nodes (test cond.now) ≤ 256 }
    requires place { at < 2 ^ 31 }
    ensures { IsWalked (tests_after own.now
        (update table.now (sets_of sets.now) (test cond.now)) at)
        (at + (sets_nodes (sets_of sets.now) + test_nodes (test cond.now))) result }
{
    check_names(table, own.columns(), sets)?;
    check_all_references(own, sets, cond)?;
    let next = check_sets(own, sets, at)?;
    let after = check_test_types(own, cond, next)?;
    Ok(after)
}

// The tests of a change of a table with these columns; the number of the node after it.
fn check_in_table(
    alloc: Global,
    columns: &[(Name, ColType)],
    change: &Change,
    at: u32,
) -> Result<u32, ChangeFault>
    requires columns { AreColumns columns.now }
    requires narrow { length columns.now ≤ 32 }
    requires small { IsSmall (change_of change.now) }
    requires place { at < 2 ^ 31 }
    ensures { IsWalked (tests_after columns.now (change_of change.now) at)
        (at + change_nodes (change_of change.now)) result }
{
    match change {
        Change::Insert { table, cells } => check_insert(table, columns, cells, at),
        Change::Delete { cond, .. } => {
            let own = OwnColumns::new(alloc, columns)?;
            check_delete(&own, cond, at)
        }
        Change::Update { table, sets, cond } => {
            let own = OwnColumns::new(alloc, columns)?;
            check_update(&own, table, sets, cond, at)
        }
    }
}

/// Whether a change is accepted over a schema, and else its first refusal in the one order: its
/// table (22); of the columns of an INSERT or the set columns of an UPDATE, in written order, for
/// each whether it stood before (27) and whether it is unknown (23); of an INSERT the first missing
/// column in name order (35); the references of its expressions and its condition, in written order
/// (23); its types (25). Places count nodes from `first_node` on, which is below 2^31; of an INSERT
/// each value is one. Of an accepted change it answers where its table stands, and the number of
/// the node after it. Each tree has at most 256 nodes, and each table of the schema at most 32
/// columns.
pub fn check_change(
    alloc: Global,
    schema: &Schema,
    change: &Change,
    first_node: u32,
) -> Result<CheckedChange, ChangeFault>
    requires small { IsSmall (change_of change.now) }
    requires narrow { AreNarrow schema.now }
    requires place { first_node < 2 ^ 31 }
    ensures checked { IsTested (change_fault schema.now (change_of change.now) first_node) result }
    ensures accepted { change_fault schema.now (change_of change.now) first_node ≡ None
        → IsOkUnless result OutOfMemory }
    ensures refused { (r : OneRefusal) → change_fault schema.now (change_of change.now) first_node
        ≡ Some r
        → IsErrOf result (Refused r) ⊎ IsErrOf result OutOfMemory }
    ensures table { IfOk result (λ checked. name_at schema.now checked.place
        ≡ Some (table_of (change_of change.now))) }
    ensures next { IfOk result (λ checked. checked.next
        ≡ first_node + change_nodes (change_of change.now)) }
    ensures valid { IsSchema schema.now }
{
    let name = change.table();
    match schema.find(name) {
        Some((place, table)) => {
            let next = check_in_table(alloc, table.columns(), change, first_node)?;
            Ok(CheckedChange { place, next })
        }
        None => Err(ChangeFault::Refused(Refusal::NoTable(name.copy()?))),
    }
}

// No places, with room for so many.
fn room_for_places(alloc: Global, count: usize) -> Result<Vec<usize>, NoMemory>
    ensures { IfOk result (λ places. places.items ≡ []) }
{
    let places = Vec::with_capacity(alloc, count)?;
    Ok(places)
}

// Puts the place after the others.
fn put_place(places: &mut Vec<usize>, place: usize) -> Result<(), NoMemory>
    ensures { OnOk result (places.new.items ≡ places.old.items ++ place ∷ []) }
{
    places.push(place)?;
    Ok(())
}

// The changes one after the other, with the number of the first node of each; where the table of
// each stands.
fn check_in_turn(
    alloc: Global,
    schema: &Schema,
    changes: &[Change],
) -> Result<Vec<usize>, ChangeFault>
    requires counted { first_excess (changing (changes_of changes.now)) ≡ None }
    requires narrow { AreNarrow schema.now }
    ensures checked { IsTested (changes_fault schema.now (changes_of changes.now)) result }
    ensures tables { IfOk result (λ places. StandAt schema.now (changes_of changes.now)
        places.items) }
{
    let mut places = room_for_places(alloc, changes.len())?;
    let mut at = 0u32;
    for change in changes {
        let checked = check_change(alloc, schema, change, at)?;
        put_place(&mut places, checked.place)?;
        at = checked.next;
    }
    Ok(places)
}

/// Whether all changes of a command are accepted over a schema, each whole before the next, and
/// else the first refusal. Places of nodes count through the whole command. Of accepted changes it
/// answers where the table of each stands, from 0 in the order of names. The counts of the command
/// have to be within their limits (`check_counts`), and each table of the schema has at most 32
/// columns.
pub fn check_changes(
    alloc: Global,
    schema: &Schema,
    changes: &[Change],
) -> Result<Vec<usize>, ChangeFault>
    requires counted { first_excess (changing (changes_of changes.now)) ≡ None }
    requires narrow { AreNarrow schema.now }
    ensures tables { IfOk result (λ places. StandAt schema.now (changes_of changes.now)
        places.items) }
    ensures checked { IsTested (changes_fault schema.now (changes_of changes.now)) result }
    ensures accepted { changes_fault schema.now (changes_of changes.now) ≡ None
        → IsOkUnless result OutOfMemory }
    ensures refused { (r : OneRefusal) → changes_fault schema.now (changes_of changes.now) ≡ Some r
        → IsErrOf result (Refused r) ⊎ IsErrOf result OutOfMemory }
{
    check_in_turn(alloc, schema, changes)
}
