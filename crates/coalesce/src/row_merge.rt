ghost use Rattle.std.specs.Prelude.{◌≡◌, ◌≤◌, ◌<◌, ◌+◌, length, slice_index_or};
ghost use Rattle.prima_base.specs.declared.timed_row.TimedRow.{TimedRow};
ghost use Rattle.coalesce.specs.Joining.{standing, merged, touch_rows, join_rows};

use crate::row_cut::exchange;
use prima_base::compare_vals;
use prima_base_rows::TimedRows;

// Whether the next is of the same row and begins before, or where, the first ends.
fn touches(rows: &TimedRows<'_>, first: usize, next: usize) -> bool
    requires first_within { first < length rows.now.items }
    requires next_within { next < length rows.now.items }
    ensures { (d : TimedRow) → result ≡ touch_rows (slice_index_or rows.now.items first d)
        (slice_index_or rows.now.items next d) }
{
    compare_vals(rows.values(first), rows.values(next)).is_eq()
        && rows.period(next).start() <= rows.period(first).end()
}

// Joins the next entry into the last that is kept, or keeps it too. The last that is kept is
// answered.
fn turn(rows: &mut TimedRows<'_>, kept: usize, next: usize) -> usize
    requires apart { kept < next }
    requires within { next < length rows.old.items }
    ensures kept { result ≤ next }
    ensures len { length rows.new.items ≡ length rows.old.items }
    ensures stands { standing touch_rows join_rows kept next rows.old.items
        ≡ standing touch_rows join_rows result (next + 1) rows.new.items }
{
    if touches(rows, kept, next) {
        let joined = rows.period(kept).until(rows.period(next).end());
        rows.set_period(kept, joined);
        kept
    } else {
        exchange(rows, kept + 1, next);
        kept + 1
    }
}

/// Joins the entries of a sorted list that touch.
pub fn join_sorted(rows: &mut TimedRows<'_>)
    ensures { rows.new.items ≡ merged touch_rows join_rows rows.old.items }
{
    if rows.is_empty() {
        return;
    }
    let mut kept = 0;
    let mut next = 1;
    'rows: while next < rows.len() {
        kept = turn(rows, kept, next);
        next += 1;
    }
    rows.truncate(kept + 1);
}
