//! Rows that stand next to one another and share their first value.
//!
//! What is read of a table comes by the ids of its rows: where these ascend, as in a table that was
//! filled in order, all that a row ever was stands together, by time. Each such group is put in
//! order by itself; where the groups ascend, all rows are then in order, and one pass finds that
//! out.

ghost use Rattle.std.specs.Prelude.{◌≡◌, ◌≤◌, ◌<◌, length};
ghost use Rattle.std.specs.List.Sorted.{IsPermutation};

use prima_base::Val;
use prima_base_rows::TimedRows;

// Whether both rows begin with the same value.
fn share_first(row: &[Val<'_>], other: &[Val<'_>]) -> bool {
    match (row.first(), other.first()) {
        (Some(first), Some(second)) => first == second,
        _ => false,
    }
}

// Where the group ends that begins here.
fn group_end(rows: &TimedRows<'_>, start: usize) -> usize
    requires { start < length rows.now.items }
    ensures { (start < result) × (result ≤ length rows.now.items) }
{
    let first = rows.values(start);
    let mut end = start + 1;
    'rows: while end < rows.len() && share_first(first, rows.values(end)) {
        end += 1;
    }
    end
}

/// Puts the rows of each group in order. It takes no memory.
pub fn sort_groups(rows: &mut TimedRows<'_>)
    ensures { IsPermutation rows.old.items rows.new.items }
{
    let mut start = 0;
    'groups: while start < rows.len() {
        let end = group_end(rows, start);
        rows.sort_part(start, end);
        start = end;
    }
}
