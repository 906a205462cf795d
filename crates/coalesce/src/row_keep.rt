ghost use Rattle.std.specs.Prelude.{◌≡◌, ◌≤◌, ◌<◌, ◌+◌, length};
ghost use Rattle.prima_base.specs.Keeping.{below, between, lasting, keeps, keeps_all, kept};
ghost use Rattle.prima_base.specs.Timed.{entries_of};
ghost use Rattle.coalesce.specs.Cutting.{kept_row, left};
ghost use Rattle.coalesce.specs.Joining.{AreAmong};

use crate::row_cut::exchange;
use prima_base::{FOREVER, Keep, Period};
use prima_base_rows::TimedRows;

// Whether the number is below the bound; `FOREVER` is no limit.
fn is_below(bound: u64, number: u64) -> bool
    ensures { result ≡ below bound number }
{
    bound == FOREVER || number < bound
}

// Whether the number is one from the first bound on, and below the second.
fn is_between(first: u64, second: u64, number: u64) -> bool
    ensures { result ≡ between first second number }
{
    first <= number && is_below(second, number)
}

// How many moments the period has: `FOREVER`, where it still goes on.
fn moments_of(period: Period) -> u64
    ensures { result ≡ lasting period }
{
    if period.end() == FOREVER {
        FOREVER
    } else {
        period.end() - period.start()
    }
}

// Whether the period meets the condition.
fn meets(condition: Keep, period: Period) -> bool
    ensures { result ≡ keeps condition period }
{
    match condition {
        Keep::Starting(first, second) => is_between(first, second, period.start()),
        Keep::Ending(first, second) => is_between(first, second, period.end()),
        Keep::Lasting(first, second) => is_between(first, second, moments_of(period)),
        Keep::Covering(moment) => period.start() <= moment && moment < period.end(),
        Keep::Overlapping(first, second) => {
            is_below(second, period.start()) && first < period.end()
        }
    }
}

// Whether the period meets each of the conditions.
fn meets_all(conditions: &[Keep], period: Period) -> bool
    ensures { result ≡ keeps_all conditions.now period }
{
    match conditions {
        [] => true,
        [first, rest @ ..] => meets(*first, period) && meets_all(rest, period),
    }
}

// Keeps the next row after those that are kept, where its period meets the conditions. How many are
// kept is answered.
fn keep_next(rows: &mut TimedRows<'_>, conditions: &[Keep], kept: usize, next: usize) -> usize
    requires apart { kept ≤ next }
    requires within { next < length rows.old.items }
    ensures kept { result ≤ next + 1 }
    ensures len { length rows.new.items ≡ length rows.old.items }
    ensures stands { left (kept_row conditions.now) kept next rows.old.items
        ≡ left (kept_row conditions.now) result (next + 1) rows.new.items }
{
    if meets_all(conditions, rows.period(next)) {
        exchange(rows, kept, next);
        kept + 1
    } else {
        kept
    }
}

/// Keeps the rows whose periods meet every condition of KEEP, in their order. The periods are those
/// of the one list, cut to the slice of the query. Each row stays as it was, with what of it is
/// borrowed. It takes no memory.
pub fn keep(rows: &mut TimedRows<'_>, conditions: &[Keep])
    ensures rows { entries_of rows.new.items ≡ kept conditions.now (entries_of rows.old.items) }
    ensures among { AreAmong rows.old.items rows.new.items }
{
    let mut kept = 0;
    let mut next = 0;
    'rows: while next < rows.len() {
        kept = keep_next(rows, conditions, kept, next);
        next += 1;
    }
    rows.truncate(kept);
}
