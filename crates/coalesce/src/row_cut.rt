ghost use Rattle.std.specs.Prelude.{◌≡◌, ◌≤◌, ◌<◌, ◌+◌, true, length};
ghost use Rattle.std.specs.List.{filter_map, swap};
ghost use Rattle.prima_base.specs.Timed.{entries_of};
ghost use Rattle.coalesce.specs.Cutting.{cut_row, cut_entry, left};
ghost use Rattle.coalesce.specs.Joining.{HaveValuesOf};

use crate::row_list::is_inside;
use prima_base::{Period, meet};
use prima_base_rows::TimedRows;

/// Exchanges two rows. One that is in its place stays where it is, and is not moved.
pub fn exchange(rows: &mut TimedRows<'_>, place: usize, next: usize)
    requires order { place ≤ next }
    requires within { next < length rows.old.items }
    ensures { rows.new.items ≡ swap rows.old.items place next }
{
    if place < next {
        rows.swap(place, next);
    }
}

// Keeps the next row after those that are kept, where it has a moment of the slice. How many are
// kept is answered.
fn keep(rows: &mut TimedRows<'_>, slice: Period, kept: usize, next: usize) -> usize
    requires apart { kept ≤ next }
    requires within { next < length rows.old.items }
    ensures kept { result ≤ next + 1 }
    ensures len { length rows.new.items ≡ length rows.old.items }
    ensures stands { left (cut_row slice) kept next rows.old.items
        ≡ left (cut_row slice) result (next + 1) rows.new.items }
{
    match meet(rows.period(next), slice) {
        Some(period) => {
            rows.set_period(next, period);
            exchange(rows, kept, next);
            kept + 1
        }
        None => kept,
    }
}

// Whether every row is inside the slice, so that nothing of any is cut off.
fn are_inside(rows: &TimedRows<'_>, slice: Period) -> bool
    ensures { result ≡ true → filter_map (cut_row slice) rows.now.items ≡ rows.now.items }
{
    for index in 0..rows.len() {
        if !is_inside(rows.period(index), slice) {
            return false;
        }
    }
    true
}

/// Cuts each row to the slice, and drops those that have no moment of it. Where all are inside the
/// slice, as rows are that were read in it, none is moved or written.
pub fn cut_rows(rows: &mut TimedRows<'_>, slice: Period)
    ensures { rows.new.items ≡ filter_map (cut_row slice) rows.old.items }
{
    if are_inside(rows, slice) {
        return;
    }
    let mut kept = 0;
    let mut next = 0;
    'rows: while next < rows.len() {
        kept = keep(rows, slice, kept, next);
        next += 1;
    }
    rows.truncate(kept);
}

/// Leaves each row its moments of the slice, and drops those that have none. The rows stay in their
/// order, and what is borrowed stays borrowed. It takes no memory.
pub fn cut_to_slice(rows: &mut TimedRows<'_>, slice: Period)
    ensures rows { entries_of rows.new.items
        ≡ filter_map (cut_entry slice) (entries_of rows.old.items) }
    ensures values { HaveValuesOf rows.old.items rows.new.items }
{
    cut_rows(rows, slice);
}
