//! What the changes of a table make of it, row by row over the rows that are stored.
//!
//! What is known are the rows by which the table differs from what is stored, each with whether the
//! table has it now; a row that is again as it is stored is known no more. So a change costs what
//! it comes to, whatever the table holds: an INSERT one row, and an UPDATE or DELETE the rows
//! between two cuts, or those with one value of a column, of those that are stored and of those
//! that are known. Stored rows are borrowed while they are tested.

ghost use Rattle.std.specs.Prelude.{◌≡◌, ◌+◌, ◌<◌, ◌++◌, ◌&&◌, ℕ, List, [], ◌∷◌, map, cond, Some};
ghost use Rattle.std.specs.Prelude.{IfOk, OnOk, if◌then◌else◌};
ghost use Rattle.std.specs.List.{filter};
ghost use Rattle.std.specs.Map.{lookup, keys_of};
ghost use Rattle.std.specs.List.Sorted.{IsStrictlySortedBy};
ghost use Rattle.std.specs.BTreeMap.{is_at};
ghost use Rattle.std.specs.Ordering.{is_eq};
ghost use Rattle.relations_spec.specs.Sets.{In, has};
ghost use Rattle.relations_spec.specs.Spans.{forever};
ghost use Rattle.prima_base.specs.Order.{row_cmp, shown};
ghost use Rattle.prima_base.specs.Columns.{AreColumns, IsRow, IsRelation};
ghost use Rattle.prima_base.specs.declared.value.Value.{Value as OneValue};
ghost use Rattle.cond_expr.specs.Rows.{AreValid};
ghost use Rattle.cond_expr.specs.Seen.{test};
ghost use Rattle.history_store.specs.Store.{AllBefore, relation_at};
ghost use Rattle.smo_ops_types.specs.Changes.{change_of, sets_of};
ghost use Rattle.smo_ops_spec.specs.OneRow.{Row as OneRow, Relation, meets, row_of, with_sets};
ghost use Rattle.smo_ops_spec.specs.Effects.{relation_after, gained_rows};
ghost use Rattle.smo_ops_spec.specs.Inserting.{relation_after_each};
ghost use Rattle.version_groups_changes.specs.Changing.{AreAccepted, borrowed_changes};
ghost use Rattle.version_groups_changes.specs.PendingChanges.{told, is_kept, LeadsTo, AreHits};
ghost use Rattle.version_groups_changes.specs.PendingChanges.{lost_by_now};
ghost use Rattle.version_groups_changes.specs.PendingChanges.{gained_by_now};

use crate::pending_row::PendingRows;
use crate::row_value::copy_values;
use cond_expr::{CmpOp, Cond, Expr, pinned};
use history_store::{BorrowedRows, GivenRow, StoredTable};
use prima_base::{ColType, Name, NoMemory, Row, Steps, Val, Value};
use prima_base_counter::fresh_steps;
use std::alloc::Global;
use std::marker::Brand;
use std::sync::ledger::{Blank, Ledger};
use version_groups_candidates::{
    Change, OwnColumns, filter_for, high_cut, hits_are_between_the_cuts, hits_have_pinned_values,
    hits_pass_filters, inserted_row, lend_rows, low_cut, passes, row_meets, row_with_sets,
};

// The row that is borrowed.
fn owned_row<'a>(alloc: Global, values: &[Val<'_>]) -> Result<GivenRow<'a>, NoMemory>
    requires { AreValid values.now }
    ensures { IfOk result (λ row. row ≡ map shown values.now) }
{
    let mut owned = Vec::with_capacity(alloc, values.len())?;
    for value in values {
        owned.push(value.copy()?.into_value(alloc)?)?;
    }
    Ok(GivenRow::owned(Row::new(alloc, owned)))
}

// Puts a copy of the stored row after the hits where it meets the condition and no change has lost
// it.
fn put_stored<'a>(
    alloc: Global,
    pending: &PendingRows<'a>,
    own: &OwnColumns<'_>,
    cond: &Cond,
    values: &[Val<'_>],
    hits: &mut Vec<GivenRow<'a>>,
) -> Result<(), NoMemory>
    requires { AreValid values.now }
    ensures { OnOk result (hits.new.items ≡ hits.old.items
        ++ (if meets own.now (test cond.now) (map shown values.now)
        && is_kept pending.now (map shown values.now) then map shown values.now ∷ [] else [])) }
{
    if !row_meets(alloc, own, cond, values)? {
        return Ok(());
    }
    let row = owned_row(alloc, values)?;
    if !pending.is_kept(&row) {
        return Ok(());
    }
    hits.push(row)?;
    Ok(())
}

// Puts copies of those of the stored rows that meet the condition and that no change has lost after
// the hits. A row is looked at whole where it passes a filter of the condition.
fn put_stored_hits<'a, L: Ledger>(
    alloc: Global,
    rows: &mut BorrowedRows<'_>,
    pending: &PendingRows<'a>,
    own: &OwnColumns<'_>,
    cond: &Cond,
    hits: &mut Vec<GivenRow<'a>>,
    steps: &mut Steps<L>,
) -> Result<(), NoMemory>
    requires columns { AreColumns own.now }
    ensures { ((row : OneRow) → In row rows.old → IsRow own.now row)
        → OnOk result (hits.new.items ≡ hits.old.items
        ++ filter (λ row. meets own.now (test cond.now) row && is_kept pending.now row)
        rows.old) }
{
    hits_pass_filters();
    let tests = filter_for(alloc, cond, own.atoms(), rows.len())?;
    let mut values = Vec::with_capacity(alloc, own.columns().len())?;
    for at in 0..rows.len() {
        if !passes(&tests, rows, at, steps) {
            continue;
        }
        rows.lend(at, &mut values, steps)?;
        put_stored(alloc, pending, own, cond, &values, hits)?;
    }
    Ok(())
}

// The rows that the table has now and that meet the condition, in any order. What is looked at for
// it is counted by a counter of the ledger.
fn find_hits_counted<'a, L: Ledger>(
    alloc: Global,
    store: &StoredTable,
    pending: &PendingRows<'a>,
    own: &OwnColumns<'_>,
    cond: &Cond,
    blank: Blank,
) -> Result<Vec<GivenRow<'a>>, NoMemory>
    requires columns { AreColumns own.now }
    requires same { store.now.columns ≡ own.now }
    requires name { blank.name ≡ L.name }
    requires parts { blank.parts ≡ L.parts }
    requires some { 0 < blank.parts }
    ensures { (m : ℕ) (now : Relation) → m < forever → AllBefore store.now (m + 1)
        → IsRelation own.now now → LeadsTo pending.now (relation_at store.now m) now
        → IfOk result (λ v. AreHits (meets own.now (test cond.now)) now v.items) }
{
    hits_are_between_the_cuts();
    hits_have_pinned_values();
    store.rows_are_a_relation();
    let from = low_cut(alloc, cond, own.atoms())?;
    let to = high_cut(alloc, cond, own.atoms())?;
    let mut rows = lend_rows(store, own, cond, &from, &to);
    let mut hits = pending.hits(alloc, own, cond, from, to)?;
    let mut steps: Steps<L> = fresh_steps(blank);
    put_stored_hits(alloc, &mut rows, pending, own, cond, &mut hits, &mut steps)?;
    Ok(hits)
}

// The same; nobody asks the counter.
fn find_hits<'a>(
    alloc: Global,
    store: &StoredTable,
    pending: &PendingRows<'a>,
    own: &OwnColumns<'_>,
    cond: &Cond,
) -> Result<Vec<GivenRow<'a>>, NoMemory>
    requires columns { AreColumns own.now }
    requires same { store.now.columns ≡ own.now }
    ensures { (m : ℕ) (now : Relation) → m < forever → AllBefore store.now (m + 1)
        → IsRelation own.now now → LeadsTo pending.now (relation_at store.now m) now
        → IfOk result (λ v. AreHits (meets own.now (test cond.now)) now v.items) }
{
    find_hits_counted::<Brand>(alloc, store, pending, own, cond, Blank::new(1))
}

/// The row that an INSERT of these cells gives, its texts borrowed from them. The one error is
/// `NoMemory`, where memory runs out.
pub(crate) fn given_row<'a>(
    alloc: Global,
    columns: &[(Name, ColType)],
    cells: &'a [(Name, Value)],
) -> Result<GivenRow<'a>, NoMemory>
    ensures { IfOk result (λ row. row ≡ row_of columns.now cells.now) }
{
    let values = inserted_row(alloc, columns, cells)?;
    Ok(GivenRow::of(values))
}

// The table has the row now, or has it no more. Where it is as it is stored the map has nothing of
// it.
fn set_row<'a>(
    store: &StoredTable,
    pending: &mut PendingRows<'a>,
    row: GivenRow<'a>,
    there: bool,
) -> Result<(), NoMemory>
    ensures { (m : ℕ) → m < forever → AllBefore store.now (m + 1)
        → OnOk result ((q : List OneValue) → lookup (is_at (row_cmp q)) pending.new
        ≡ cond (is_eq (row_cmp row.entry q)) (told (has row_cmp q (relation_at store.now m)) there)
        (lookup (is_at (row_cmp q)) pending.old)) }
{
    if there == store.holds(&row) {
        return pending.set(row, None);
    }
    pending.set(row, Some(there))
}

// The same of several rows.
fn set_each<'a>(
    store: &StoredTable,
    pending: &mut PendingRows<'a>,
    rows: Vec<GivenRow<'a>>,
    there: bool,
) -> Result<(), NoMemory>
    ensures { (m : ℕ) → m < forever → AllBefore store.now (m + 1)
        → OnOk result ((q : List OneValue) → lookup (is_at (row_cmp q)) pending.new
        ≡ cond (has row_cmp q rows.entry.items)
        (told (has row_cmp q (relation_at store.now m)) there)
        (lookup (is_at (row_cmp q)) pending.old)) }
{
    for row in rows {
        set_row(store, pending, row, there)?;
    }
    Ok(())
}

// What the rows are updated to.
fn images<'a>(
    alloc: Global,
    own: &OwnColumns<'_>,
    sets: &[(Name, Expr)],
    rows: &[GivenRow<'a>],
) -> Result<Vec<GivenRow<'a>>, NoMemory>
    requires { AreColumns own.now }
    ensures { ((row : List OneValue) → In row rows.now → IsRow own.now row)
        → IfOk result (λ v. v.items ≡ map (with_sets own.now (sets_of sets.now)) rows.now) }
{
    let mut images = Vec::with_capacity(alloc, rows.len())?;
    for row in rows {
        let values = copy_values(alloc, row, 0)?;
        let image = row_with_sets(alloc, own, sets, values)?;
        images.push(GivenRow::of(image))?;
    }
    Ok(images)
}

// Applies the change over what those before it have made.
fn apply<'a>(
    alloc: Global,
    store: &StoredTable,
    pending: &mut PendingRows<'a>,
    own: &OwnColumns<'_>,
    change: &'a Change,
) -> Result<(), NoMemory>
    requires columns { AreColumns own.now }
    requires same { store.now.columns ≡ own.now }
    ensures { (m : ℕ) (now : Relation) → m < forever → AllBefore store.now (m + 1)
        → IsRelation own.now now → LeadsTo pending.old (relation_at store.now m) now
        → OnOk result (LeadsTo pending.new (relation_at store.now m)
        (relation_after own.now (change_of change.now) now)) }
{
    match change {
        Change::Insert { cells, .. } => {
            let row = given_row(alloc, own.columns(), cells)?;
            set_row(store, pending, row, true)
        }
        Change::Delete { cond, .. } => {
            let lost = find_hits(alloc, store, pending, own, cond)?;
            set_each(store, pending, lost, false)
        }
        Change::Update { sets, cond, .. } => {
            let lost = find_hits(alloc, store, pending, own, cond)?;
            let gained = images(alloc, own, sets, &lost)?;
            set_each(store, pending, lost, false)?;
            set_each(store, pending, gained, true)
        }
    }
}

/// The condition of the change, where it is an UPDATE or DELETE. It takes no memory.
pub(crate) fn condition(change: &Change) -> Option<&Cond> {
    match change {
        Change::Update { cond, .. } | Change::Delete { cond, .. } => Some(cond),
        Change::Insert { .. } => None,
    }
}

// Puts the columns to which the change pins constants after those that are there: none where it
// pins the first of all, since the rows that begin with a value are found as they stand.
fn add_pinned(own: &OwnColumns<'_>, cond: &Cond, columns: &mut Vec<usize>) -> Result<(), NoMemory> {
    for (k, column) in own.atoms().iter().enumerate() {
        if pinned(cond, CmpOp::Eq, column).is_some() {
            if k == 0 {
                return Ok(());
            }
            if !columns.contains(&k) {
                columns.push(k)?;
            }
        }
    }
    Ok(())
}

// The columns to which the changes pin constants.
fn pinned_columns(
    alloc: Global,
    own: &OwnColumns<'_>,
    changes: &[&Change],
) -> Result<Vec<usize>, NoMemory> {
    let mut columns = Vec::new(alloc);
    for change in changes {
        if let Some(cond) = condition(*change) {
            add_pinned(own, cond, &mut columns)?;
        }
    }
    Ok(columns)
}

// What the changes, one after the other, make of the table's rows: those by which it differs from
// what is stored, each with whether the table has it after the changes.
fn pending_of<'a>(
    alloc: Global,
    store: &StoredTable,
    own: &OwnColumns<'_>,
    changes: &[&'a Change],
) -> Result<PendingRows<'a>, NoMemory>
    requires columns { AreColumns own.now }
    requires same { store.now.columns ≡ own.now }
    requires accepted { AreAccepted own.now (borrowed_changes changes.now) }
    ensures { (m : ℕ) → m < forever → AllBefore store.now (m + 1)
        → IfOk result (λ o. LeadsTo o (relation_at store.now m)
        (relation_after_each own.now (borrowed_changes changes.now)
        (relation_at store.now m))) }
{
    store.rows_are_a_relation();
    let mut pending = PendingRows::new(alloc, &pinned_columns(alloc, own, changes)?)?;
    for change in changes {
        apply(alloc, store, &mut pending, own, *change)?;
    }
    Ok(pending)
}

// Puts the row after those that are gained, or after those that are lost.
fn put_row<'a>(
    row: GivenRow<'a>,
    there: bool,
    lost: &mut Vec<GivenRow<'a>>,
    gained: &mut Vec<GivenRow<'a>>,
) -> Result<(), NoMemory>
    ensures lost { OnOk result (lost.new.items ≡ lost.old.items
        ++ (if there then [] else row.entry ∷ [])) }
    ensures gained { OnOk result (gained.new.items ≡ gained.old.items
        ++ (if there then row.entry ∷ [] else [])) }
{
    if there {
        gained.push(row)?;
    } else {
        lost.push(row)?;
    }
    Ok(())
}

// The rows of the map that are lost and those that are gained.
fn lost_and_gained_by_now<'a>(
    alloc: Global,
    pending: PendingRows<'a>,
) -> Result<(Vec<GivenRow<'a>>, Vec<GivenRow<'a>>), NoMemory>
    ensures lost { IfOk result (λ (lost, _gained). lost.items ≡ lost_by_now pending.entry) }
    ensures gained { IfOk result (λ (_lost, gained). gained.items ≡ gained_by_now pending.entry) }
    ensures ordered { IsStrictlySortedBy row_cmp (keys_of pending.entry) }
{
    let mut lost = Vec::new(alloc);
    let mut gained = Vec::new(alloc);
    for (row, there) in pending.into_rows() {
        put_row(row, there, &mut lost, &mut gained)?;
    }
    Ok((lost, gained))
}

/// The rows that the table loses by its changes, and those that it gains, each ascending. A text
/// that an INSERT gives stands in its change, also in a row that an UPDATE makes of it. The one
/// error is `NoMemory`, where memory runs out.
pub(crate) fn lost_and_gained<'a>(
    alloc: Global,
    columns: &[(Name, ColType)],
    store: &StoredTable,
    changes: &[&'a Change],
) -> Result<(Vec<GivenRow<'a>>, Vec<GivenRow<'a>>), NoMemory>
    requires columns { AreColumns columns.now }
    requires same { store.now.columns ≡ columns.now }
    requires accepted { AreAccepted columns.now (borrowed_changes changes.now) }
    ensures lost { (m : ℕ) → m < forever → AllBefore store.now (m + 1)
        → IfOk result (λ (lost, _gained). lost.items
        ≡ gained_rows (relation_after_each columns.now (borrowed_changes changes.now)
        (relation_at store.now m)) (relation_at store.now m)) }
    ensures gained { (m : ℕ) → m < forever → AllBefore store.now (m + 1)
        → IfOk result (λ (_lost, gained). gained.items
        ≡ gained_rows (relation_at store.now m)
        (relation_after_each columns.now (borrowed_changes changes.now)
        (relation_at store.now m))) }
{
    store.rows_are_a_relation();
    let own = OwnColumns::new(alloc, columns)?;
    let pending = pending_of(alloc, store, &own, changes)?;
    lost_and_gained_by_now(alloc, pending)
}
