//! An index of a table by the values of one column.

use history_store_columns::Column;
use history_store_index::RowIndex;
use history_store_row_order::{BorrowedRows, few_of};
use history_store_value_order::{count_under, put_handed, sort_ids, take_each};
use prima_base::{NoMemory, Value};
use std::alloc::Global;
use std::marker::Model;

/// The ids of the current rows of a table in the order of the values of one column, and then of
/// themselves.
#[derive(Drop)]
pub struct ValueIndex {
    column: usize,
    index: RowIndex,
}

impl Model for ValueIndex {
    ghost use Rattle.history_store_writes.specs.ValueIndexes.{Indexed};

    ghost Value = { Indexed };

    ghost view = { λ x. record { column = x.column; ids = x.index.ids; room = x.index.room } };
}

impl ValueIndex {
    ghost use Rattle.std.specs.Prelude.{◌≡◌, ◌≤◌, ◌<◌, ◌+◌, ◌^◌, ℕ, [], IfOk, OnOk};
    ghost use Rattle.std.specs.Prelude.{length, slice_index_or};
    ghost use Rattle.relations_spec.specs.Sets.{In};
    ghost use Rattle.history_store_columns.specs.Log.{Log};
    ghost use Rattle.history_store_row_order.specs.Logs.{cells_of, few_of};
    ghost use Rattle.history_store_row_order.specs.Rows.{row_now, rows_of};
    ghost use Rattle.history_store_value_order.specs.ByValue.{Distinct, ids_handed, ids_with};
    ghost use Rattle.history_store_writes.specs.ValueIndexes.{IsIndexed, IsIndexPrepared, IsLosing};
    ghost use Rattle.history_store_writes.specs.ValueIndexes.{IsGaining};

    /// The index of the column at this place, with room for all ids that are put in by one change
    /// of these rows. It sorts the ids.
    pub fn of(
        alloc: Global,
        columns: &[Column],
        column: usize,
        live: &[usize],
    ) -> Result<ValueIndex, NoMemory>
        requires within { column < length columns.now }
        requires known { (q : ℕ) → In q live.now → (k : ℕ) (d : Log) → k < length columns.now
            → q < (slice_index_or columns.now k d).ids }
        requires distinct { Distinct live.now }
        ensures column { IfOk result (λ x. x.column ≡ column) }
        ensures indexed { IfOk result (λ x. IsIndexed (cells_of columns.now) live.now [] x) }
        ensures room { IfOk result (λ x. few_of (length live.now) ≤ x.room) }
    {
        let ids = sort_ids(alloc, &columns[column], live)?;
        let mut index = RowIndex::of(alloc, &ids)?;
        index.reserve(few_of(live.len()))?;
        Ok(ValueIndex { column, index })
    }

    /// The place of the column.
    pub fn column(&self) -> usize
        ensures { result ≡ self.now.column }
    {
        self.column
    }

    /// Makes room for so many ids more.
    pub fn reserve(&mut self, more: usize) -> Result<(), NoMemory>
        ensures column { self.new.column ≡ self.old.column }
        ensures ids { self.new.ids ≡ self.old.ids }
        ensures kept { self.old.room ≤ self.new.room }
        ensures room { OnOk result (more ≤ self.new.room) }
    {
        self.index.reserve(more)
    }

    /// Takes the ids of lost rows out. It takes no memory.
    pub fn lose(&mut self, columns: &[Column], lost: &[usize])
        requires ready { IsIndexPrepared columns.now self.old }
        requires there { (q : ℕ) → In q lost.now → In q self.old.ids }
        requires distinct { Distinct lost.now }
        ensures { IsLosing columns.now lost.now self.old self.new }
    {
        take_each(&columns[self.column], &mut self.index, lost);
    }

    /// Puts the ids of so many gained rows in. It takes no memory.
    pub fn gain(&mut self, columns: &[Column], lost: &[usize], next: usize, count: usize)
        requires few { next + count < 2 ^ 64 }
        requires ready { IsIndexPrepared columns.now self.old }
        requires new { (q : ℕ) (d : Log) → In q (ids_handed lost.now next count)
            → q < (slice_index_or columns.now self.old.column d).ids }
        requires fresh { (q : ℕ) → In q (ids_handed lost.now next count) → In q self.old.ids → ⊥ }
        requires distinct { Distinct (ids_handed lost.now next count) }
        requires room { count ≤ self.old.room }
        ensures { IsGaining columns.now (ids_handed lost.now next count) self.old self.new }
    {
        put_handed(&columns[self.column], &mut self.index, lost, next, count);
    }

    /// The rows that have this value in the column, borrowed, in the order of their ids. They are
    /// found by binary search. It takes no memory.
    pub fn rows_with<'a>(&'a self, columns: &'a [Column], value: &Value) -> BorrowedRows<'a>
        requires ready { IsIndexPrepared columns.now self.now }
        requires known { (q : ℕ) → In q self.now.ids → (k : ℕ) (d : Log) → k < length columns.now
            → q < (slice_index_or columns.now k d).ids }
        requires whole { (q : ℕ) → In q self.now.ids
            → length (row_now q (cells_of columns.now)) ≡ length columns.now }
        ensures { result ≡ rows_of (ids_with value.now
            (slice_index_or (cells_of columns.now) self.now.column []) self.now.ids)
            (cells_of columns.now) }
    {
        let column = &columns[self.column];
        let value = value.lend();
        let end = count_under(column, &self.index, &value, column.ids());
        let start = count_under(column, &self.index, &value, 0).min(end);
        BorrowedRows::over(columns, &self.index, start, end)
    }
}
