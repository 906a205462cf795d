//! The change to a relation that is given whole.

ghost use Rattle.std.specs.Prelude.{◌≡◌, ◌+◌, ◌^◌, ◌<◌, ℕ, IfOk, length, slice_index_or};
ghost use Rattle.relations_spec.specs.Sets.{Ascends};
ghost use Rattle.prima_base.specs.Order.{row_cmp};
ghost use Rattle.history_store_columns.specs.Log.{Log};
ghost use Rattle.history_store_row_order.specs.Logs.{cells_of};
ghost use Rattle.history_store_row_order.specs.Rows.{rows_of, AllWidth};
ghost use Rattle.history_store_row_order.specs.Handing.{lost_ids, gained_rows, after_ids};
ghost use Rattle.history_store_row_order.specs.Indexes.{index_of, Whole};

use crate::index_splice::After;
use crate::walk::{Difference, find_difference, next_ids};
use history_store_columns::Column;
use history_store_index::RowIndex;
use prima_base::{NoMemory, Row};
use prima_base_rows::GivenRow;
use std::alloc::Global;

/// A change: the ids of the rows that it loses, the rows that it gains, and the index after it.
pub struct RowChange<'a> {
    pub lost: Vec<usize>,
    pub gained: Vec<GivenRow<'a>>,
    pub after: After,
}

/// The change from the rows of the index to these, by one walk along both. A row that stays keeps
/// its id; the gained rows get the lost ids in turn, and then new ones.
pub fn find_change<'a>(
    alloc: Global,
    columns: &[Column],
    live: &RowIndex,
    next: usize,
    rows: &'a [Row],
) -> Result<RowChange<'a>, NoMemory>
    requires wide { AllWidth (length columns.now) rows.now }
    requires known { (id : ℕ) → (k : ℕ) (d : Log) → id < length live.now.ids
        → k < length columns.now
        → slice_index_or live.now.ids id 0 < (slice_index_or columns.now k d).ids }
    requires live_rise { Ascends row_cmp (rows_of live.now.ids (cells_of columns.now)) }
    requires rows_rise { Ascends row_cmp rows.now }
    requires few { next + length rows.now < 2 ^ 64 }
    ensures lost { IfOk result (λ c. c.lost.items
        ≡ lost_ids (cells_of columns.now) live.now.ids rows.now) }
    ensures gained { IfOk result (λ c. c.gained.items
        ≡ gained_rows (cells_of columns.now) live.now.ids rows.now) }
    ensures after { IfOk result (λ c. index_of c.after
        ≡ Whole (after_ids (cells_of columns.now) live.now.ids
        (lost_ids (cells_of columns.now) live.now.ids rows.now) next rows.now)) }
{
    let Difference {
        lost,
        owners,
        gained,
    } = find_difference(alloc, columns, &live.copy()?, rows)?;
    let ids = next_ids(alloc, &owners, &lost, next)?;
    let after = After::Whole(RowIndex::of(alloc, &ids)?);
    Ok(RowChange {
        lost,
        gained,
        after,
    })
}
