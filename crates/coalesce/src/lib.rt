//! Coalescing: the one list of what rows with periods hold inside a slice, made in place.
//!
//! The rows are cut to the slice, sorted, and joined where they touch. (Coalescing, PRIMA 2008.)
//! Rows that are the list already are left as they are. Of the list `keep` keeps what meets the
//! conditions of a KEEP.
#![tactic(auto)]

mod row_cut;
mod row_group;
mod row_keep;
mod row_list;
mod row_merge;

ghost use Rattle.std.specs.Prelude.{◌≡◌, ℕ, true, false, []};
ghost use Rattle.relations_spec.specs.Listing.{IsListing};
ghost use Rattle.relations_spec.specs.Spans.{covers};
ghost use Rattle.coalesce.specs.Joining.{HaveValuesOf};
ghost use Rattle.prima_base.specs.Order.{row_cmp};
ghost use Rattle.prima_base.specs.Timed.{rows_at, entries_of};

use crate::row_cut::cut_rows;
use crate::row_group::sort_groups;
use crate::row_list::is_listing;
use crate::row_merge::join_sorted;
use prima_base::Period;
use prima_base_rows::TimedRows;
pub use row_cut::cut_to_slice;
pub use row_keep::keep;

/// Makes of rows with periods the one list of what they hold inside a slice: each row with its
/// longest periods, ascending by row and start. At each moment of the slice the same rows hold as
/// before, and at no other moment any. The values of each row are those of one that was there and
/// held where its period begins: what is borrowed stays borrowed. It takes no memory. (Coalescing,
/// PRIMA 2008.)
pub fn coalesce_in_place(rows: &mut TimedRows<'_>, slice: Period)
    ensures listing { IsListing row_cmp (rows_at rows.old.items) slice (entries_of rows.new.items) }
    ensures same { (m : ℕ) → covers slice m ≡ true
        → rows_at rows.new.items m ≡ rows_at rows.old.items m }
    ensures inside { (m : ℕ) → covers slice m ≡ false → rows_at rows.new.items m ≡ [] }
    ensures values { HaveValuesOf rows.old.items rows.new.items }
{
    if is_listing(rows, slice) {
        return;
    }
    cut_rows(rows, slice);
    sort_groups(rows);
    if is_listing(rows, slice) {
        return;
    }
    rows.sort();
    join_sorted(rows);
}
