//! The rows that can meet a condition.

ghost use Rattle.std.specs.Prelude.{◌≡◌, ◌≤◌, false, true, ◌<◌, ℕ, length, List, Some, IfOk};
ghost use Rattle.std.specs.Prelude.{[], ◌∷◌, slice_index_or};
ghost use Rattle.prima_base.specs.declared.value.Value.{Value as OneValue};
ghost use Rattle.prima_base.specs.Columns.{Column as OwnColumn, AreColumns, IsRow};
ghost use Rattle.cond_expr.specs.AtomColumns.{columns_at};
ghost use Rattle.cond_expr.specs.Seen.{test};
ghost use Rattle.cond_expr.specs.Trees.{Test};
ghost use Rattle.cond_expr.specs.PinnedParts.{pinned};
ghost use Rattle.cond_expr.specs.declared.expr.CmpOp.TheVariants.{Eq};
ghost use Rattle.cond_expr.specs.declared.expr.Column.{Column as AtomColumn};
ghost use Rattle.history_store.specs.Cuts.{is_before};
ghost use Rattle.history_store.specs.Handing.{at_column};
ghost use Rattle.smo_ops_spec.specs.OneRow.{meets};
ghost use Rattle.version_groups_candidates.specs.Ranges.{low_cut, high_cut};

use crate::end::{Side, cut_at_end};
use cond_expr::{CmpOp, Column, Cond, pinned};
use history_store::Cut;
use prima_base::NoMemory;
use std::alloc::Global;

/// The cut before which no row can meet the condition. The one error is `NoMemory`, where memory
/// runs out.
pub fn low_cut(alloc: Global, cond: &Cond, columns: &[Column]) -> Result<Cut, NoMemory>
    ensures { IfOk result (λ c. c ≡ low_cut columns.now (test cond.now)) }
{
    let mut values = Vec::new(alloc);
    for column in columns {
        let Some(value) = pinned(cond, CmpOp::Eq, column) else {
            return cut_at_end(Side::Low, values, cond, column);
        };
        values.push(value.copy()?)?;
    }
    Ok(Cut::before(values))
}

/// The cut after which no row can meet the condition. The one error is `NoMemory`, where memory
/// runs out.
pub fn high_cut(alloc: Global, cond: &Cond, columns: &[Column]) -> Result<Cut, NoMemory>
    ensures { IfOk result (λ c. c ≡ high_cut columns.now (test cond.now)) }
{
    let mut values = Vec::new(alloc);
    for column in columns {
        let Some(value) = pinned(cond, CmpOp::Eq, column) else {
            return cut_at_end(Side::High, values, cond, column);
        };
        values.push(value.copy()?)?;
    }
    Ok(Cut::after(values))
}

/// A row that meets the condition has the constant to which a column is pinned.
pub fn hits_have_pinned_values()
    ensures { (its : List OwnColumn) (t : Test) (row : List OneValue) (k : ℕ) (v : OneValue)
        → AreColumns its → IsRow its row → meets its t row ≡ true
        → k < length (columns_at 0 its) → ((d : AtomColumn)
        → pinned Eq (slice_index_or (columns_at 0 its) k d) t ≡ Some v)
        → at_column k row ≡ v ∷ [] }
{}

/// A row that meets the condition is between the cuts, which have no more values than there are
/// columns.
pub fn hits_are_between_the_cuts()
    ensures low { (its : List OwnColumn) (t : Test) (row : List OneValue) → AreColumns its
        → IsRow its row → meets its t row ≡ true
        → is_before (low_cut (columns_at 0 its) t) row ≡ false }
    ensures high { (its : List OwnColumn) (t : Test) (row : List OneValue) → AreColumns its
        → IsRow its row → meets its t row ≡ true
        → is_before (high_cut (columns_at 0 its) t) row ≡ true }
    ensures low_narrow { (its : List OwnColumn) (t : Test)
        → length (low_cut (columns_at 0 its) t).values ≤ length its }
    ensures high_narrow { (its : List OwnColumn) (t : Test)
        → length (high_cut (columns_at 0 its) t).values ≤ length its }
{}
