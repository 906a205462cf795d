//! The indexes that a table keeps by the values of its columns, beside the one by its rows.

ghost use Rattle.std.specs.Prelude.{◌≡◌, ◌+◌, ◌^◌, ◌<◌, ◌≤◌, ℕ, List, [], All, IfSome, OnOk};
ghost use Rattle.std.specs.Prelude.{is_some, length, slice_index_or, vec_len};
ghost use Rattle.relations_spec.specs.Sets.{In};
ghost use Rattle.history_store_columns.specs.Log.{Log};
ghost use Rattle.history_store_row_order.specs.Logs.{cells_of, few_of};
ghost use Rattle.history_store_value_order.specs.ByValue.{Distinct, ids_handed};
ghost use Rattle.history_store_writes.specs.ValueIndexes.{Indexed, indexed_columns, is_indexed};
ghost use Rattle.history_store_writes.specs.ValueIndexes.{indexed_after};
ghost use Rattle.history_store_writes.specs.ValueIndexes.{least_room, IsIndexed, IsIndexPrepared};
ghost use Rattle.history_store_writes.specs.ValueIndexes.{IsLosing};
ghost use Rattle.history_store_writes.specs.ValueIndexes.{IsGaining};

use crate::value_index::ValueIndex;
use history_store_columns::Column;
use history_store_row_order::few_of;
use prima_base::NoMemory;

/// The place of the index of the column at this place, where there is one.
pub fn index_of(others: &[ValueIndex], column: usize) -> Option<usize>
    ensures there { is_some result ≡ is_indexed column (indexed_columns others.now) }
    ensures at { IfSome result (λ k. (k < length others.now)
        × ((d : Indexed) → (slice_index_or others.now k d).column ≡ column)) }
{
    for (k, other) in others.iter().enumerate() {
        if other.column() == column {
            return Some(k);
        }
    }
    None
}

/// Room for this many ids more in each.
pub fn reserve_each(others: &mut Vec<ValueIndex>, more: usize) -> Result<(), NoMemory>
    ensures len { vec_len others.new ≡ vec_len others.old }
    ensures same { (k : ℕ) (d : Indexed) → k < vec_len others.old
        → ((slice_index_or others.new.items k d).column
        ≡ (slice_index_or others.old.items k d).column)
        × ((slice_index_or others.new.items k d).ids
        ≡ (slice_index_or others.old.items k d).ids) }
    ensures kept { (room : ℕ) → least_room room others.old.items
        ≤ least_room room others.new.items }
    ensures room { OnOk result (All (λ x. more ≤ x.room) others.new.items) }
{
    for k in 0..others.len() {
        others[k].reserve(more)?;
    }
    Ok(())
}

// Takes the ids of lost rows out of each.
fn lose_all(others: &mut Vec<ValueIndex>, columns: &[Column], lost: &[usize])
    requires ready { All (IsIndexPrepared columns.now) others.old.items }
    requires there { All (λ x. (q : ℕ) → In q lost.now → In q x.ids) others.old.items }
    requires distinct { Distinct lost.now }
    ensures len { vec_len others.new ≡ vec_len others.old }
    ensures each { (k : ℕ) (d : Indexed) → k < vec_len others.old
        → IsLosing columns.now lost.now (slice_index_or others.old.items k d)
        (slice_index_or others.new.items k d) }
{
    for k in 0..others.len() {
        others[k].lose(columns, lost);
    }
}

/// Takes the ids of lost rows out of each, before a change of a table of so many rows that also
/// gains so many. Where these are not few of them the indexes go: to sort the ids anew costs less.
/// It takes no memory.
pub fn lose_each(
    others: &mut Vec<ValueIndex>,
    columns: &[Column],
    rows: usize,
    lost: &[usize],
    gained: usize,
)
    requires ready { All (IsIndexPrepared columns.now) others.old.items }
    requires there { All (λ x. (q : ℕ) → In q lost.now → In q x.ids) others.old.items }
    requires distinct { Distinct lost.now }
    requires room { gained ≤ few_of rows → All (λ x. gained ≤ x.room) others.old.items }
    ensures columns { indexed_columns others.new.items
        ≡ indexed_after rows (length lost.now) gained (indexed_columns others.old.items) }
    ensures room { All (λ x. gained ≤ x.room) others.new.items }
    ensures indexed { (live : List ℕ) → All (IsIndexed (cells_of columns.now) live [])
        others.old.items → All (IsIndexed (cells_of columns.now) live lost.now) others.new.items }
{
    let few = few_of(rows);
    if lost.len() > few || gained > few {
        others.clear();
        return;
    }
    lose_all(others, columns, lost);
}

/// Puts the ids of so many gained rows into each. It takes no memory.
pub fn gain_each(
    others: &mut Vec<ValueIndex>,
    columns: &[Column],
    lost: &[usize],
    next: usize,
    count: usize,
)
    requires few { next + count < 2 ^ 64 }
    requires ready { All (IsIndexPrepared columns.now) others.old.items }
    requires new { (q : ℕ) (k : ℕ) (d : Log) → In q (ids_handed lost.now next count)
        → k < length columns.now → q < (slice_index_or columns.now k d).ids }
    requires fresh { All (λ x. (q : ℕ) → In q (ids_handed lost.now next count) → In q x.ids → ⊥)
        others.old.items }
    requires distinct { Distinct (ids_handed lost.now next count) }
    requires room { All (λ x. count ≤ x.room) others.old.items }
    ensures len { vec_len others.new ≡ vec_len others.old }
    ensures each { (k : ℕ) (d : Indexed) → k < vec_len others.old
        → IsGaining columns.now (ids_handed lost.now next count)
        (slice_index_or others.old.items k d) (slice_index_or others.new.items k d) }
{
    for k in 0..others.len() {
        others[k].gain(columns, lost, next, count);
    }
}
