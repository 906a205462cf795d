ghost use Rattle.std.specs.Prelude.{◌≡◌, ◌≢◌, ◌≤◌, ◌<◌, ℕ, take, length, IfOk};
ghost use Rattle.std.specs.Ordering.{is_eq};
ghost use Rattle.relations_spec.specs.Spans.{always};
ghost use Rattle.relations_spec.specs.Listing.{IsListing};
ghost use Rattle.prima_base.specs.Order.{row_cmp};
ghost use Rattle.prima_base.specs.Timed.{rows_at, entries_of};
ghost use Rattle.time_aggregate.specs.Aggregates.{IsAggregated};
ghost use Rattle.prima_base.specs.Groups.{groups_shown};
ghost use Rattle.time_aggregate.specs.Turns.{rows_shown, row_at};

use crate::cell::first_values;
use crate::sweep::told_of;
use prima_base::{AggRow, NoMemory, compare_vals};
use prima_base_rows::TimedRows;
use std::alloc::Global;
use temporal_lang_types::AggItem;

// Whether two rows are of one group.
fn share_group(rows: &TimedRows<'_>, group: usize, row: usize, other: usize) -> bool
    requires row_within { row < length rows.now.items }
    requires other_within { other < length rows.now.items }
    ensures { result ≡ is_eq (row_cmp (take group (row_at (rows_shown rows.now.items) row))
        (take group (row_at (rows_shown rows.now.items) other))) }
{
    let first = first_values(rows.values(row), group);
    let second = first_values(rows.values(other), group);
    compare_vals(first, second).is_eq()
}

// Where the group ends that begins here.
fn group_end(rows: &TimedRows<'_>, group: usize, start: usize) -> usize
    requires { start < length rows.now.items }
    ensures within { (start < result) × (result ≤ length rows.now.items) }
    ensures same { (k : ℕ) → start ≤ k → k < result
        → take group (row_at (rows_shown rows.now.items) k)
        ≡ take group (row_at (rows_shown rows.now.items) start) }
    ensures other { result < length rows.now.items
        → take group (row_at (rows_shown rows.now.items) result)
        ≢ take group (row_at (rows_shown rows.now.items) start) }
{
    let count = rows.len();
    let mut end = start + 1;
    'rows: while end < count && share_group(rows, group, end, start) {
        end += 1;
    }
    end
}

/// What groups of rows have at each moment, over time: the rows that hold are grouped by their
/// first `group` values, and each group that has a row is listed with what the aggregates have of
/// it, and with the longest periods in which that stays the same; ascending by group, then start.
/// The rows are a listing. For n rows it takes n log n steps.
pub fn aggregate<'a>(
    alloc: Global,
    rows: &TimedRows<'a>,
    group: u32,
    items: &[AggItem],
) -> Result<Vec<AggRow<'a>>, NoMemory>
    requires { IsListing row_cmp (rows_at rows.now.items) always (entries_of rows.now.items) }
    ensures { IfOk result (λ v. IsAggregated group items.now (rows_at rows.now.items) always
        (groups_shown v.items)) }
{
    let group = group as usize;
    let mut listed = Vec::new(alloc);
    let mut start = 0;
    'groups: while start < rows.len() {
        let end = group_end(rows, group, start);
        let mut told = told_of(alloc, rows, start, end, items, group)?;
        listed.append(&mut told)?;
        start = end;
    }
    Ok(listed)
}
