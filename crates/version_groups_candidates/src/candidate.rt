//! Stored rows, borrowed, among which are all that can meet a condition.

ghost use Rattle.std.specs.Prelude.{◌≡◌, ◌+◌, ◌<◌, ℕ, length, IfOk, IfSome};
ghost use Rattle.relations_spec.specs.Spans.{forever};
ghost use Rattle.prima_base.specs.Columns.{AreColumns};
ghost use Rattle.cond_expr.specs.AtomColumns.{columns_at};
ghost use Rattle.cond_expr.specs.Seen.{test};
ghost use Rattle.history_store.specs.Store.{AllBefore, relation_at};
ghost use Rattle.smo_ops_spec.specs.OneRow.{meets};
ghost use Rattle.version_groups_candidates.specs.Ranges.{low_cut, high_cut};
ghost use Rattle.version_groups_candidates.specs.Candidates.{HaveHits};

use crate::range::{high_cut, hits_are_between_the_cuts, hits_have_pinned_values, low_cut};
use cond_expr::{CmpOp, Cond, pinned};
use history_store::{BorrowedRows, Cut, StoredTable};
use prima_base::NoMemory;
use smo_ops::OwnColumns;
use std::alloc::Global;

// The rows that have the constant to which the condition pins the column at this place, where the
// column has an index and they are fewer than these; else these.
fn fewer_rows<'a>(
    store: &'a StoredTable,
    own: &OwnColumns<'_>,
    cond: &Cond,
    column: usize,
    rows: BorrowedRows<'a>,
) -> BorrowedRows<'a>
    requires columns { AreColumns own.now }
    requires same { store.now.columns ≡ own.now }
    requires within { column < length (columns_at 0 own.now) }
    ensures { (m : ℕ) → m < forever → AllBefore store.now (m + 1)
        → HaveHits (meets own.now (test cond.now)) (relation_at store.now m) rows.entry
        → HaveHits (meets own.now (test cond.now)) (relation_at store.now m) result }
{
    hits_have_pinned_values();
    store.rows_are_a_relation();
    let Some(value) = pinned(cond, CmpOp::Eq, &own.atoms()[column]) else {
        return rows;
    };
    let Some(others) = store.rows_with(column, value) else {
        return rows;
    };
    if others.len() < rows.len() {
        return others;
    }
    rows
}

/// Stored rows, borrowed, among which are all that meet the condition: those between the cuts, or
/// those that have the constant to which the condition pins a column with an index, whichever are
/// fewest. It takes no memory.
pub fn lend_rows<'a>(
    store: &'a StoredTable,
    own: &OwnColumns<'_>,
    cond: &Cond,
    from: &Cut,
    to: &Cut,
) -> BorrowedRows<'a>
    requires columns { AreColumns own.now }
    requires same { store.now.columns ≡ own.now }
    requires from { from.now ≡ low_cut (columns_at 0 own.now) (test cond.now) }
    requires to { to.now ≡ high_cut (columns_at 0 own.now) (test cond.now) }
    ensures { (m : ℕ) → m < forever → AllBefore store.now (m + 1)
        → HaveHits (meets own.now (test cond.now)) (relation_at store.now m) result }
{
    hits_are_between_the_cuts();
    store.rows_are_a_relation();
    let mut rows = store.between(from, to);
    for column in 0..own.atoms().len() {
        rows = fewer_rows(store, own, cond, column, rows);
    }
    rows
}

// The first column that the condition pins to a constant and that has no index. The first of all
// needs none, since the rows that begin with a value are found by the cuts.
fn column_without(store: &StoredTable, own: &OwnColumns<'_>, cond: &Cond) -> Option<usize>
    ensures { IfSome result (λ k. k < length (columns_at 0 own.now)) }
{
    for (k, column) in own.atoms().iter().enumerate() {
        if k > 0
            && let Some(value) = pinned(cond, CmpOp::Eq, column)
            && store.rows_with(k, value).is_none()
        {
            return Some(k);
        }
    }
    None
}

/// The column whose index finding the rows that meet the condition asks for: none where those among
/// which they are found without it are few. The one error is `NoMemory`, where memory runs out.
pub fn column_asked(
    alloc: Global,
    store: &StoredTable,
    own: &OwnColumns<'_>,
    cond: &Cond,
) -> Result<Option<usize>, NoMemory>
    requires columns { AreColumns own.now }
    requires same { store.now.columns ≡ own.now }
    ensures { IfOk result (λ o. IfSome o (λ k. k < length own.now)) }
{
    let Some(column) = column_without(store, own, cond) else {
        return Ok(None);
    };
    let from = low_cut(alloc, cond, own.atoms())?;
    let to = high_cut(alloc, cond, own.atoms())?;
    let rows = lend_rows(store, own, cond, &from, &to);
    if store.are_few(rows.len()) {
        return Ok(None);
    }
    Ok(Some(column))
}
