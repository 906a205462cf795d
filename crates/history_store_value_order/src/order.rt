//! Ids of current rows in the order of the values of one column.

ghost use Rattle.std.specs.Prelude.{◌≡◌, ◌+◌, ◌^◌, ◌<◌, ◌≤◌, ℕ, true, false, List, [], ◌∷◌, All};
ghost use Rattle.std.specs.Prelude.{IfOk, OnOk, length, slice_index, slice_index_or, map};
ghost use Rattle.std.specs.Ordering.{is_lt};
ghost use Rattle.std.specs.declared.cmp.Ordering.TheVariants.{Less};
ghost use Rattle.relations_spec.specs.Sets.{Ascends, In, Same};
ghost use Rattle.prima_base.specs.Order.{shown, IsBorrowed};
ghost use Rattle.history_store_columns.specs.Log.{newest};
ghost use Rattle.history_store_value_order.specs.ByValue.{Distinct, mark_cmp, mark_of, by_value};
ghost use Rattle.history_store_value_order.specs.ByValue.{ids_handed};
ghost use Rattle.history_store_value_order.specs.ByValue.{IsWithout, IsWith};

use history_store_columns::Column;
use history_store_index::RowIndex;
use prima_base::{NoMemory, Val};
use std::alloc::Global;
use std::cmp::Ordering;

// Whether the other id's value is less than this one, or the same and the other id less than this.
fn is_under(column: &Column, other: usize, value: &Val<'_>, id: usize) -> bool
    requires { other < column.now.ids }
    ensures { result ≡ is_lt (mark_cmp (mark_of column.now.cells other)
        (shown value.now ∷ [], id)) }
{
    match column.newest(other).compare(value) {
        Ordering::Less => true,
        Ordering::Equal => other < id,
        Ordering::Greater => false,
    }
}

/// How many ids have a lesser value, or the same and are less themselves: these stand first. It is
/// found by binary search.
pub fn count_under(column: &Column, index: &RowIndex, value: &Val<'_>, id: usize) -> usize
    requires known { (q : ℕ) → In q index.now.ids → q < column.now.ids }
    requires rises { Ascends (by_value column.now.cells) index.now.ids }
    ensures within { result ≤ length index.now.ids }
    ensures before { (k : ℕ) → k < result → is_lt
        (mark_cmp (mark_of column.now.cells (slice_index index.now.ids k))
        (shown value.now ∷ [], id)) ≡ true }
    ensures after { (k : ℕ) → result ≤ k → k < length index.now.ids
        → is_lt (mark_cmp (mark_of column.now.cells (slice_index index.now.ids k))
        (shown value.now ∷ [], id)) ≡ false }
{
    let mut low = 0;
    let mut high = index.len();
    'halves: while low < high {
        let middle = low + (high - low) / 2;
        if is_under(column, index.id_at(middle), value, id) {
            low = middle + 1;
        } else {
            high = middle;
        }
    }
    low
}

// Takes the id out. It takes no memory.
fn take_id(column: &Column, index: &mut RowIndex, id: usize)
    requires known { (q : ℕ) → In q index.old.ids → q < column.now.ids }
    requires rises { Ascends (by_value column.now.cells) index.old.ids }
    requires there { In id index.old.ids }
    ensures without { IsWithout column.now.cells (id ∷ []) index.old.ids index.new.ids }
    ensures room { index.old.room ≤ index.new.room }
{
    let at = count_under(column, index, &column.newest(id), id);
    index.remove(at);
}

/// Takes these ids out. It takes no memory.
pub fn take_each(column: &Column, index: &mut RowIndex, ids: &[usize])
    requires known { (q : ℕ) → In q index.old.ids → q < column.now.ids }
    requires rises { Ascends (by_value column.now.cells) index.old.ids }
    requires there { (q : ℕ) → In q ids.now → In q index.old.ids }
    requires distinct { Distinct ids.now }
    ensures without { IsWithout column.now.cells ids.now index.old.ids index.new.ids }
    ensures room { index.old.room ≤ index.new.room }
{
    for id in ids {
        take_id(column, index, *id);
    }
}

// Puts the id in. It takes no memory.
fn put_id(column: &Column, index: &mut RowIndex, id: usize)
    requires known { (q : ℕ) → In q index.old.ids → q < column.now.ids }
    requires rises { Ascends (by_value column.now.cells) index.old.ids }
    requires new { id < column.now.ids }
    requires fresh { In id index.old.ids → ⊥ }
    requires room { 0 < index.old.room }
    ensures with_it { IsWith column.now.cells (id ∷ []) index.old.ids index.new.ids }
    ensures room { index.old.room ≤ index.new.room + 1 }
{
    let at = count_under(column, index, &column.newest(id), id);
    index.insert(at, id);
}

// The id of a gained row: a lost one, or a new one.
fn handed_at(lost: &[usize], next: usize, at: usize) -> usize
    requires few { next + at < 2 ^ 64 }
    ensures { (n : ℕ) → at < n → result ≡ slice_index_or (ids_handed lost.now next n) at 0 }
{
    if at < lost.len() {
        return lost[at];
    }
    next + (at - lost.len())
}

/// Puts the ids of so many gained rows in. It takes no memory.
pub fn put_handed(column: &Column, index: &mut RowIndex, lost: &[usize], next: usize, count: usize)
    requires few { next + count < 2 ^ 64 }
    requires known { (q : ℕ) → In q index.old.ids → q < column.now.ids }
    requires rises { Ascends (by_value column.now.cells) index.old.ids }
    requires new { (q : ℕ) → In q (ids_handed lost.now next count) → q < column.now.ids }
    requires fresh { (q : ℕ) → In q (ids_handed lost.now next count) → In q index.old.ids → ⊥ }
    requires distinct { Distinct (ids_handed lost.now next count) }
    requires room { count ≤ index.old.room }
    ensures { IsWith column.now.cells (ids_handed lost.now next count) index.old.ids index.new.ids }
{
    for at in 0..count {
        put_id(column, index, handed_at(lost, next, at));
    }
}

// Each id with its value, borrowed.
fn lend_values<'a>(
    alloc: Global,
    column: &'a Column,
    live: &[usize],
) -> Result<Vec<(Val<'a>, usize)>, NoMemory>
    requires known { (q : ℕ) → In q live.now → q < column.now.ids }
    ensures ids { IfOk result (λ v. map (λ m. m.1) v.items ≡ live.now) }
    ensures values { IfOk result (λ v. All (λ m. newest m.1 column.now.cells ≡ shown m.0 ∷ [])
        v.items) }
    ensures borrowed { IfOk result (λ v. All (λ m. IsBorrowed m.0) v.items) }
{
    let mut marks = Vec::with_capacity(alloc, live.len())?;
    for id in live {
        marks.push((column.newest(*id), *id))?;
    }
    Ok(marks)
}

// The ids that stand after something else.
fn ids_of<M>(alloc: Global, marks: &[(M, usize)]) -> Result<Vec<usize>, NoMemory>
    ensures { IfOk result (λ ids. ids.items ≡ map (λ m. m.1) marks.now) }
{
    let mut ids = Vec::with_capacity(alloc, marks.len())?;
    for (_, id) in marks {
        ids.push(*id)?;
    }
    Ok(ids)
}

/// The ids in the order of the values that their rows have.
pub fn sort_ids(alloc: Global, column: &Column, live: &[usize]) -> Result<Vec<usize>, NoMemory>
    requires known { (q : ℕ) → In q live.now → q < column.now.ids }
    requires distinct { Distinct live.now }
    ensures rises { IfOk result (λ ids. Ascends (by_value column.now.cells) ids.items) }
    ensures same { IfOk result (λ ids. Same ids.items live.now) }
{
    let mut marks = lend_values(alloc, column, live)?;
    marks.sort_unstable();
    ids_of(alloc, &marks)
}
