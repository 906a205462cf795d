//! What the changes of a table make of it.

ghost use Rattle.std.specs.Prelude.{◌≡◌, ◌+◌, ◌<◌, ◌≤◌, ◌++◌, ℕ, List, [], ◌∷◌, length, IfOk};
ghost use Rattle.std.specs.Option.{option_map};
ghost use Rattle.std.specs.FinMap.{get};
ghost use Rattle.relations_spec.specs.Sets.{set_of};
ghost use Rattle.relations_spec.specs.Spans.{forever};
ghost use Rattle.prima_base.specs.Order.{row_cmp};
ghost use Rattle.prima_base.specs.Columns.{AreColumns, IsRelation};
ghost use Rattle.history_store.specs.Store.{AllBefore, relation_at};
ghost use Rattle.smo_ops_types.specs.Changes.{change_of};
ghost use Rattle.smo_ops_spec.specs.Effects.{gained_rows};
ghost use Rattle.smo_ops_spec.specs.Inserting.{insertions};
ghost use Rattle.version_groups_changes.specs.Changing.{AreAccepted, IsChange, borrowed_changes};
ghost use Rattle.version_groups_changes.specs.Changing.{changed_relation};

use crate::pending_changes::{condition, given_row, lost_and_gained};
use history_store::{GivenRow, PreparedTable, StoredTable};
use prima_base::{ColType, Name, NoMemory};
use std::alloc::Global;
use version_groups_candidates::{Change, OwnColumns, column_asked, insertions_are_a_union};

// The rows, and the one that the change gives, borrowed by it; none where it is no INSERT.
fn add_given<'a>(
    alloc: Global,
    columns: &[(Name, ColType)],
    change: &'a Change,
    rows: Vec<GivenRow<'a>>,
) -> Result<Option<Vec<GivenRow<'a>>>, NoMemory>
    ensures { IfOk result (λ o. option_map (λ v. v.items) o
        ≡ option_map (λ more. rows.entry.items ++ more)
        (insertions columns.now (change_of change.now ∷ []))) }
{
    let Change::Insert { cells, .. } = change else {
        return Ok(None);
    };
    let mut rows = rows;
    rows.push(given_row(alloc, columns, cells)?)?;
    Ok(Some(rows))
}

// The rows that the changes give, in order, borrowed by them; none where one of them is no INSERT.
fn given_rows<'a>(
    alloc: Global,
    columns: &[(Name, ColType)],
    changes: &[&'a Change],
) -> Result<Option<Vec<GivenRow<'a>>>, NoMemory>
    ensures { IfOk result (λ o. option_map (λ v. v.items) o
        ≡ insertions columns.now (borrowed_changes changes.now)) }
{
    let mut rows = Vec::new(alloc);
    for change in changes {
        let Some(more) = add_given(alloc, columns, *change, rows)? else {
            return Ok(None);
        };
        rows = more;
    }
    Ok(Some(rows))
}

// The relation that the rows stand for: each row once, ascending. It takes no memory.
fn make_set(rows: &mut Vec<GivenRow<'_>>)
    ensures { rows.new.items ≡ set_of row_cmp rows.old.items }
{
    rows.sort_unstable();
    rows.dedup();
}

// Makes ready that the table gets these rows too, from the stamp on.
fn prepare_given<'a>(
    store: &mut StoredTable,
    stamp: u64,
    rows: Vec<GivenRow<'a>>,
) -> Result<PreparedTable<'a>, NoMemory>
    requires before { AllBefore store.old stamp }
    requires valid { stamp < forever }
    requires relation { IsRelation store.old.columns (set_of row_cmp rows.items) }
    ensures same { store.new ≡ record store.old { spare = store.new.spare } }
    ensures spare { store.old.spare ≤ store.new.spare }
    ensures change { IfOk result (λ p. IsChange store.new stamp
        (set_of row_cmp (relation_at store.old stamp ++ rows.entry.items)) p) }
    ensures gained { IfOk result (λ p. length p.gained
        ≡ length (gained_rows (relation_at store.old stamp)
        (set_of row_cmp (relation_at store.old stamp ++ rows.entry.items)))) }
    ensures lost { IfOk result (λ p. length p.lost
        ≡ length (gained_rows (set_of row_cmp (relation_at store.old stamp ++ rows.entry.items))
        (relation_at store.old stamp))) }
{
    let mut rows = rows;
    make_set(&mut rows);
    let prepared = store.prepare_union(stamp, rows)?;
    Ok(prepared)
}

// Makes ready what the changes lose and gain, from the stamp on.
fn prepare_pending<'a>(
    alloc: Global,
    columns: &[(Name, ColType)],
    store: &mut StoredTable,
    stamp: u64,
    changes: &[&'a Change],
) -> Result<PreparedTable<'a>, NoMemory>
    requires columns { AreColumns columns.now }
    requires same { store.old.columns ≡ columns.now }
    requires accepted { AreAccepted columns.now (borrowed_changes changes.now) }
    requires before { AllBefore store.old stamp }
    requires valid { stamp < forever }
    ensures same { store.new ≡ record store.old { spare = store.new.spare } }
    ensures spare { store.old.spare ≤ store.new.spare }
    ensures change { IfOk result (λ p. IsChange store.new stamp
        (changed_relation columns.now changes.now store.old stamp) p) }
    ensures gained { IfOk result (λ p. length p.gained ≡ length (gained_rows
        (relation_at store.old stamp) (changed_relation columns.now changes.now store.old stamp))) }
    ensures lost { IfOk result (λ p. length p.lost ≡ length (gained_rows
        (changed_relation columns.now changes.now store.old stamp) (relation_at store.old stamp))) }
{
    store.rows_are_a_relation();
    let (lost, gained) = lost_and_gained(alloc, columns, store, changes)?;
    let prepared = store.prepare_change(stamp, &lost, gained)?;
    Ok(prepared)
}

// Keeps the index that finding the rows of the change asks for.
fn index_asked(
    alloc: Global,
    own: &OwnColumns<'_>,
    store: &mut StoredTable,
    change: &Change,
) -> Result<(), NoMemory>
    requires columns { AreColumns own.now }
    requires same { store.old.columns ≡ own.now }
    ensures same { store.new ≡ record store.old
        { spare = store.new.spare; indexed = store.new.indexed } }
    ensures spare { store.old.spare ≤ store.new.spare }
{
    let Some(cond) = condition(change) else {
        return Ok(());
    };
    match column_asked(alloc, store, own, cond)? {
        Some(column) => store.index_column(column),
        None => Ok(()),
    }
}

// Keeps the indexes that finding the rows of the changes asks for.
fn index_each(
    alloc: Global,
    own: &OwnColumns<'_>,
    store: &mut StoredTable,
    changes: &[&Change],
) -> Result<(), NoMemory>
    requires columns { AreColumns own.now }
    requires same { store.old.columns ≡ own.now }
    ensures same { store.new ≡ record store.old
        { spare = store.new.spare; indexed = store.new.indexed } }
    ensures spare { store.old.spare ≤ store.new.spare }
{
    for change in changes {
        index_asked(alloc, own, store, *change)?;
    }
    Ok(())
}

// The same as `prepare_pending`, with the indexes that the changes ask for.
fn prepare_indexed<'a>(
    alloc: Global,
    columns: &[(Name, ColType)],
    store: &mut StoredTable,
    stamp: u64,
    changes: &[&'a Change],
) -> Result<PreparedTable<'a>, NoMemory>
    requires columns { AreColumns columns.now }
    requires same { store.old.columns ≡ columns.now }
    requires accepted { AreAccepted columns.now (borrowed_changes changes.now) }
    requires before { AllBefore store.old stamp }
    requires valid { stamp < forever }
    ensures same { store.new ≡ record store.old
        { spare = store.new.spare; indexed = store.new.indexed } }
    ensures spare { store.old.spare ≤ store.new.spare }
    ensures change { IfOk result (λ p. IsChange store.new stamp
        (changed_relation columns.now changes.now store.old stamp) p) }
    ensures gained { IfOk result (λ p. length p.gained ≡ length (gained_rows
        (relation_at store.old stamp) (changed_relation columns.now changes.now store.old stamp))) }
    ensures lost { IfOk result (λ p. length p.lost ≡ length (gained_rows
        (changed_relation columns.now changes.now store.old stamp) (relation_at store.old stamp))) }
{
    let own = OwnColumns::new(alloc, columns)?;
    index_each(alloc, &own, store, changes)?;
    prepare_pending(alloc, columns, store, stamp, changes)
}

/// Makes a table's changes ready, from the stamp on, and all the room that installing them needs.
/// INSERTs alone cost one search a row, and each row stays borrowed by its change until it is
/// installed. An UPDATE or DELETE costs a look at each row between two cuts in the order of the
/// rows, where its condition pins the first columns to constants or bounds them, or at the rows
/// with one value of another column that has an index, where it pins that one and these are fewer,
/// and else at each row; of the rows only those that are lost or gained are copied. An index is
/// made where the condition pins a column that has none, and the rows to be looked at without it
/// are not few. The one error is `NoMemory`, where memory runs out. What the table stands for stays
/// as it is.
pub fn prepare_table<'a>(
    alloc: Global,
    columns: &[(Name, ColType)],
    store: &mut StoredTable,
    stamp: u64,
    changes: &[&'a Change],
) -> Result<PreparedTable<'a>, NoMemory>
    requires columns { AreColumns columns.now }
    requires same { store.old.columns ≡ columns.now }
    requires accepted { AreAccepted columns.now (borrowed_changes changes.now) }
    requires before { AllBefore store.old stamp }
    requires valid { stamp < forever }
    ensures same { store.new ≡ record store.old
        { spare = store.new.spare; indexed = store.new.indexed } }
    ensures spare { store.old.spare ≤ store.new.spare }
    ensures change { IfOk result (λ p. IsChange store.new stamp
        (changed_relation columns.now changes.now store.old stamp) p) }
    ensures gained { IfOk result (λ p. length p.gained ≡ length (gained_rows
        (relation_at store.old stamp) (changed_relation columns.now changes.now store.old stamp))) }
    ensures lost { IfOk result (λ p. length p.lost ≡ length (gained_rows
        (changed_relation columns.now changes.now store.old stamp) (relation_at store.old stamp))) }
{
    insertions_are_a_union();
    let given = given_rows(alloc, columns, changes)?;
    match given {
        Some(rows) => prepare_given(store, stamp, rows),
        None => prepare_indexed(alloc, columns, store, stamp, changes),
    }
}
