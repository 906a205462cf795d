//! Rows that are the list of what they hold as they stand.
//!
//! What is answered of one table filled in order, and each list that is coalesced once more, come
//! so: one pass finds that nothing is to be done.

ghost use Rattle.std.specs.Prelude.{◌≡◌, ◌<◌, length, drop, slice_index_or};
ghost use Rattle.prima_base.specs.declared.timed_row.TimedRow.{TimedRow};
ghost use Rattle.coalesce.specs.Listed.{is_inside, is_after, are_after, is_listing};

use prima_base::{Period, compare_vals};
use prima_base_rows::TimedRows;

/// Whether the period is inside the slice.
pub(crate) fn is_inside(period: Period, slice: Period) -> bool
    ensures { result ≡ is_inside slice period }
{
    slice.start() <= period.start() && period.end() <= slice.end()
}

// Whether the next is of a later row, or of the same row after a gap.
fn is_after(rows: &TimedRows<'_>, last: usize, next: usize) -> bool
    requires last_within { last < length rows.now.items }
    requires next_within { next < length rows.now.items }
    ensures { (d : TimedRow) → result
        ≡ is_after (slice_index_or rows.now.items last d) (slice_index_or rows.now.items next d) }
{
    let gap = rows.period(last).end().cmp(&rows.period(next).start());
    compare_vals(rows.values(last), rows.values(next))
        .then(gap)
        .is_lt()
}

// Whether each of the rows after the first is inside the slice, and after the one before it.
fn are_after(rows: &TimedRows<'_>, slice: Period) -> bool
    requires { 0 < length rows.now.items }
    ensures { (d : TimedRow) → result
        ≡ are_after slice (slice_index_or rows.now.items 0 d) (drop 1 rows.now.items) }
{
    let mut next = 1;
    'rows: while next < rows.len() {
        if !is_inside(rows.period(next), slice) {
            return false;
        }
        if !is_after(rows, next - 1, next) {
            return false;
        }
        next += 1;
    }
    true
}

/// Whether the rows are the one list of what they hold, inside the slice: ascending by row and
/// start, with a gap between two periods of one row.
pub fn is_listing(rows: &TimedRows<'_>, slice: Period) -> bool
    ensures { result ≡ is_listing slice rows.now.items }
{
    if rows.is_empty() {
        return true;
    }
    is_inside(rows.period(0), slice) && are_after(rows, slice)
}
