use crate::likeness::{is_settled, same_rows};
use crate::restoration::{Cell, check_cells, restored_columns};
use crate::scan::KeyScan;
use crate::table_heading::column_place;
use history_store_columns::{CellScan, Column};
use history_store_index::RowIndex;
use history_store_row_order::{
    After, BorrowedRows, Cut, RowChange, change_index, copy_rows, count_before, few_of,
    find_change, place_in, splice, splice_fresh,
};
use history_store_writes::{
    ValueIndex, apply, count_cells, empty_columns, gain_each, index_of, lose_each, reserve_rows,
    rows_room,
};
use prima_base::{ColType, Name, NoMemory, Period, Row, Steps, Value, copy_columns};
use prima_base_rows::GivenRow;
use std::alloc::Global;
use std::marker::Model;
use std::sync::ledger::Ledger;

/// The history of one table. An id is a place among the keys; `live` has the ids of the current
/// rows in the order of their rows, and each of `others` has them in the order of the values of a
/// column that was asked for.
pub struct StoredTable {
    alloc: Global,
    columns: Vec<(Name, ColType)>,
    keys: Vec<Period>,
    logs: Vec<Column>,
    live: RowIndex,
    others: Vec<ValueIndex>,
}

// Written out, not derived: each crate above would prove a derived one again.
impl Drop for StoredTable {
    fn drop(self) {
        let StoredTable {
            alloc: _alloc,
            columns: _columns,
            keys: _keys,
            logs: _logs,
            live: _live,
            others: _others,
        } = self;
    }
}

impl Model for StoredTable {
    ghost use Rattle.history_store.specs.Store.{Store};

    ghost Value = { Store };

    ghost use Rattle.history_store.specs.TableFields.{table_view, IsTable};

    ghost view = { table_view };

    ghost invariant = { IsTable };
}

/// A change that was made ready: it is installed into the table that prepared it. Texts of the
/// gained rows may stand elsewhere until then.
#[derive(Drop)]
pub struct PreparedTable<'a> {
    stamp: u64,
    lost: Vec<usize>,
    gained: Vec<GivenRow<'a>>,
    after: After,
}

impl<'a> Model for PreparedTable<'a> {
    ghost use Rattle.history_store_change_spec.specs.Change.{PreparedChange};

    ghost Value = { PreparedChange };

    ghost use Rattle.history_store_row_order.specs.Indexes.{index_of};

    ghost view = { λ p. record {
      stamp = p.stamp;
      lost = p.lost.items;
      gained = p.gained.items;
      after = index_of p.after;
    } };
}

impl PreparedTable<'_> {
    ghost use Rattle.std.specs.Prelude.{◌≡◌, length};

    /// How many rows the change gains.
    pub fn gained(&self) -> u64
        ensures { result ≡ length self.now.gained }
    {
        self.gained.len() as u64
    }

    /// How many rows the change loses.
    pub fn lost(&self) -> u64
        ensures { result ≡ length self.now.lost }
    {
        self.lost.len() as u64
    }
}

impl StoredTable {
    ghost use Rattle.std.specs.Prelude.{◌≡◌, ℕ, ◌+◌, ◌-◌, ◌<◌, ◌≤◌, List, [], length, All, IfOk};
    ghost use Rattle.std.specs.Prelude.{IfSome, OnOk, OnErr, is_some, option_map, slice_index_or};
    ghost use Rattle.std.specs.Prelude.{nat_le};
    ghost use Rattle.relations_spec.specs.Sets.{In, has};
    ghost use Rattle.relations_spec.specs.Spans.{forever};
    ghost use Rattle.prima_base.specs.Order.{row_cmp};
    ghost use Rattle.prima_base.specs.Columns.{IsValid};
    ghost use Rattle.prima_base.specs.declared.value.Value.{Value as OneValue};
    ghost use Rattle.history_store.specs.Store.{Store, cells_in, weight, rows_from, relation_at};
    ghost use Rattle.history_store.specs.Store.{IsRelation, AreColumns, AllBefore, IsStore};
    ghost use Rattle.history_store.specs.Store.{column_of};
    ghost use Rattle.history_store_writes.specs.Writing.{new_keys};
    ghost use Rattle.history_store_row_order.specs.Handing.{handed, only_in};
    ghost use Rattle.history_store_change_spec.specs.Handing.{written};
    ghost use Rattle.history_store_change_spec.specs.Change.{PreparedChange, IsPrepared};
    ghost use Rattle.history_store_change_spec.specs.Change.{rows_after};
    ghost use Rattle.history_store_change_spec.specs.Change.{rows_along, changed, keys_after};
    ghost use Rattle.history_store_change_spec.specs.Change.{cells_after};
    ghost use Rattle.history_store_change_spec.specs.Change.{write_rows, no_cells};
    ghost use Rattle.history_store.specs.Scans.{keys_from};
    ghost use Rattle.history_store_row_order.specs.Cuts.{between};
    ghost use Rattle.history_store_change_spec.specs.Restoring.{store_with, IsInOrder};
    ghost use Rattle.history_store.specs.Restoring.{entries_of};
    ghost use Rattle.history_store_row_order.specs.Logs.{few_of};
    ghost use Rattle.history_store_writes.specs.ValueIndexes.{is_indexed, indexed_after};
    ghost use Rattle.history_store_writes.specs.RowRoom.{rows_room};
    ghost use Rattle.history_store_row_order.specs.Indexes.{index_of};
    ghost use Rattle.history_store_change_spec.specs.ByValue.{indexed_with, rows_with};

    /// A table of these columns, which stand in the order of their names: from the stamp on its
    /// relation is `rows`, before it is empty. The one error is `NoMemory`, where memory runs out.
    pub fn new(
        alloc: Global,
        columns: &[(Name, ColType)],
        stamp: u64,
        rows: &[Row],
    ) -> Result<StoredTable, NoMemory>
        requires columns { AreColumns columns.now }
        requires valid { stamp < forever }
        requires relation { IsRelation columns.now rows.now }
        ensures columns { IfOk result (λ t. t.columns ≡ columns.now) }
        ensures keys { IfOk result (λ t. t.keys ≡ new_keys stamp rows.now) }
        ensures cells { IfOk result (λ t. t.cells
            ≡ write_rows (handed [] 0 rows.now) rows.now stamp (no_cells columns.now)) }
        ensures key_count { IfOk result (λ t. length t.keys ≡ length rows.now) }
        ensures written { (f : OneValue → ℕ) (k : ℕ) → k < length columns.now
            → IfOk result (λ t. weight f (slice_index_or t.cells k []) ≡ written f k [] rows.now) }
        ensures indexed { IfOk result (λ t. t.indexed ≡ []) }
        ensures before { (m : ℕ) → m < stamp → IfOk result (λ t. relation_at t m ≡ []) }
        ensures from { (m : ℕ) → stamp ≤ m → m < forever
            → IfOk result (λ t. relation_at t m ≡ rows.now) }
        ensures later { (m : ℕ) → stamp < m → IfOk result (λ t. AllBefore t m) }
        ensures valid { IfOk result (λ t. IsStore t) }
    {
        let mut table = StoredTable {
            alloc,
            columns: copy_columns(alloc, columns)?,
            keys: Vec::new(alloc),
            logs: empty_columns(alloc, columns)?,
            live: RowIndex::of(alloc, &[])?,
            others: Vec::new(alloc),
        };
        let prepared = table.prepare(stamp, rows)?;
        table.install(prepared);
        Ok(table)
    }

    /// The table with these columns, keys and cells: the list of cells at the place of a column has
    /// those of the column, by id and start, and `order` the ids of the current rows in the order
    /// of their rows. It is built in one pass, and no row is looked at. No column has an index. The
    /// one error is `NoMemory`, where memory runs out.
    pub fn restore(
        alloc: Global,
        columns: &[(Name, ColType)],
        keys: Vec<Period>,
        cells: Vec<Vec<Cell<'_>>>,
        order: &[usize],
    ) -> Result<StoredTable, NoMemory>
        requires store { IsStore (store_with columns.now keys.items (entries_of cells.items)) }
        requires valid { All (All (λ c. IsValid c.value)) (entries_of cells.items) }
        requires order { IsInOrder keys.items (entries_of cells.items) order.now }
        ensures table { IfOk result (λ t. t ≡ record
            (store_with columns.now keys.items (entries_of cells.entry.items))
            { spare = t.spare }) }
        ensures valid { IfOk result (λ t. IsStore t) }
    {
        check_cells(&cells)?;
        let logs = restored_columns(alloc, columns, cells)?;
        Ok(StoredTable {
            alloc,
            columns: copy_columns(alloc, columns)?,
            keys,
            logs,
            live: RowIndex::of(alloc, order)?,
            others: Vec::new(alloc),
        })
    }

    // Makes room for these rows.
    fn reserve_for(&mut self, gained: &[GivenRow<'_>]) -> Result<(), NoMemory>
        ensures same { self.new ≡ record self.old { spare = self.new.spare } }
        ensures room { OnOk result (rows_room gained.now ≤ self.new.spare) }
        ensures spare { self.old.spare ≤ self.new.spare }
    {
        let room = rows_room(gained)?;
        reserve_rows(
            &mut self.keys,
            &mut self.live,
            &mut self.others,
            &mut self.logs,
            room,
        )
    }

    // The change that loses the rows of these ids and gains these rows, with the room that
    // installing it needs.
    fn prepare_parts<'a>(
        &mut self,
        stamp: u64,
        lost: Vec<usize>,
        gained: Vec<GivenRow<'a>>,
        after: After,
    ) -> Result<PreparedTable<'a>, NoMemory>
        ensures same { self.new ≡ record self.old { spare = self.new.spare } }
        ensures made { IfOk result (λ p. p ≡ record {
          stamp = stamp;
          lost = lost.items;
          gained = gained.entry.items;
          after =
              index_of after;
        }) }
        ensures room { IfOk result (λ _p. rows_room gained.entry.items ≤ self.new.spare) }
        ensures spare { self.old.spare ≤ self.new.spare }
    {
        self.reserve_for(&gained)?;
        Ok(PreparedTable {
            stamp,
            lost,
            gained,
            after,
        })
    }

    /// Makes the change to these rows ready, and all the room that installing it needs, by one walk
    /// along the current rows and these. Each stamp in the table is before this one. What the table
    /// stands for stays as it is. The one error is `NoMemory`, where memory runs out.
    pub fn prepare<'a>(
        &mut self,
        stamp: u64,
        rows: &'a [Row],
    ) -> Result<PreparedTable<'a>, NoMemory>
        requires before { AllBefore self.old stamp }
        requires valid { stamp < forever }
        requires relation { IsRelation self.old.columns rows.now }
        ensures same { self.new ≡ record self.old { spare = self.new.spare } }
        ensures stamp { IfOk result (λ p. p.stamp ≡ stamp) }
        ensures fits { IfOk result (λ p. IsPrepared self.new p) }
        ensures lost { IfOk result (λ p. rows_along p.lost stamp self.old.cells
            ≡ only_in (relation_at self.old stamp) rows.now) }
        ensures gained { IfOk result (λ p. p.gained
            ≡ only_in rows.now (relation_at self.old stamp)) }
        ensures leads { IfOk result (λ p. rows_after self.new p ≡ rows.now) }
        ensures room { IfOk result (λ p. length p.gained ≤ self.new.spare) }
        ensures spare { self.old.spare ≤ self.new.spare }
    {
        // A table has fewer than 2^64 keys: more are refused as out of memory.
        if self.keys.len().checked_add(rows.len()).is_none() {
            return Err(NoMemory);
        }
        let RowChange {
            lost,
            gained,
            after,
        } = find_change(self.alloc, &self.logs, &self.live, self.keys.len(), rows)?;
        let prepared = self.prepare_parts(stamp, lost, gained, after)?;
        Ok(prepared)
    }

    /// Makes the change that loses and gains these rows ready, and all the room that installing it
    /// needs. Each row is found by binary search: for m rows in a table of n that is in the order
    /// of m log n comparisons of rows. Where at most 64 rows are gained and at most 64 lost, the
    /// index of the current rows is not copied: the places in it are kept, and room for what is
    /// gained made. The one error is `NoMemory`, where memory runs out.
    pub fn prepare_change<'a>(
        &mut self,
        stamp: u64,
        lost: &[GivenRow<'_>],
        gained: Vec<GivenRow<'a>>,
    ) -> Result<PreparedTable<'a>, NoMemory>
        requires before { AllBefore self.old stamp }
        requires valid { stamp < forever }
        requires lost { IsRelation self.old.columns lost.now }
        requires gained { IsRelation self.old.columns gained.items }
        requires there { (row : List OneValue) → In row lost.now
            → In row (relation_at self.old stamp) }
        requires fresh { (row : List OneValue) → In row gained.items
            → In row (relation_at self.old stamp) → ⊥ }
        ensures same { self.new ≡ record self.old { spare = self.new.spare } }
        ensures stamp { IfOk result (λ p. p.stamp ≡ stamp) }
        ensures fits { IfOk result (λ p. IsPrepared self.new p) }
        ensures lost { IfOk result (λ p. rows_along p.lost stamp self.old.cells ≡ lost.now) }
        ensures gained { IfOk result (λ p. p.gained ≡ gained.entry.items) }
        ensures leads { IfOk result (λ p. rows_after self.new p
            ≡ changed (relation_at self.old stamp) lost.now gained.entry.items) }
        ensures room { IfOk result (λ p. length p.gained ≤ self.new.spare) }
        ensures spare { self.old.spare ≤ self.new.spare }
    {
        // A table has fewer than 2^64 keys: more are refused as out of memory.
        if self.keys.len().checked_add(gained.len()).is_none() {
            return Err(NoMemory);
        }
        let (found, after) = splice(
            self.alloc,
            &self.logs,
            &self.live,
            lost,
            self.keys.len(),
            &gained,
        )?;
        let prepared = self.prepare_parts(stamp, found, gained, after)?;
        Ok(prepared)
    }

    /// Makes the change ready that gains those of these rows that the table does not have, and all
    /// the room that installing it needs. Each row is found, or its place, by one binary search:
    /// for m rows in a table of n that is in the order of m log n comparisons of rows. The one
    /// error is `NoMemory`, where memory runs out.
    pub fn prepare_union<'a>(
        &mut self,
        stamp: u64,
        rows: Vec<GivenRow<'a>>,
    ) -> Result<PreparedTable<'a>, NoMemory>
        requires before { AllBefore self.old stamp }
        requires valid { stamp < forever }
        requires relation { IsRelation self.old.columns rows.items }
        ensures same { self.new ≡ record self.old { spare = self.new.spare } }
        ensures stamp { IfOk result (λ p. p.stamp ≡ stamp) }
        ensures fits { IfOk result (λ p. IsPrepared self.new p) }
        ensures lost { IfOk result (λ p. p.lost ≡ []) }
        ensures gained { IfOk result (λ p. p.gained
            ≡ only_in rows.entry.items (relation_at self.old stamp)) }
        ensures leads { IfOk result (λ p. rows_after self.new p
            ≡ changed (relation_at self.old stamp) [] p.gained) }
        ensures room { IfOk result (λ p. length p.gained ≤ self.new.spare) }
        ensures spare { self.old.spare ≤ self.new.spare }
    {
        // A table has fewer than 2^64 keys: more are refused as out of memory.
        if self.keys.len().checked_add(rows.len()).is_none() {
            return Err(NoMemory);
        }
        let (gained, after) = splice_fresh(
            self.alloc,
            &self.logs,
            &self.live,
            self.keys.len(),
            rows,
        )?;
        let lost = Vec::new(self.alloc);
        let prepared = self.prepare_parts(stamp, lost, gained, after)?;
        Ok(prepared)
    }

    /// Carries out what was made ready: from its stamp on the relation is the one that it was made
    /// for, and before it nothing changes. By any weight of values each column gains what is
    /// written into it. It takes no memory. The index of the current rows loses the ids at the
    /// places that were found and gets the gained ones at theirs, each of which moves ids of its
    /// block alone, or it is replaced by the whole one that was made ready. The indexes of columns
    /// stay where no more rows are lost, and no more gained, than are few in the table: 64, or one
    /// in 64 of its rows where that is more. Else they go, since to sort the ids anew costs less.
    pub fn install(&mut self, prepared: PreparedTable<'_>)
        requires fits { IsPrepared self.old prepared }
        requires room { length prepared.gained ≤ self.old.spare }
        ensures columns { self.new.columns ≡ self.old.columns }
        ensures keys { self.new.keys ≡ keys_after self.old prepared.entry }
        ensures cells { self.new.cells ≡ cells_after self.old prepared.entry }
        ensures indexed { self.new.indexed ≡ indexed_after
            (length (relation_at self.old prepared.entry.stamp)) (length prepared.entry.lost)
            (length prepared.entry.gained) self.old.indexed }
        ensures key_count { length self.new.keys
            ≡ length self.old.keys + (length prepared.entry.gained - length prepared.entry.lost) }
        ensures written { (f : OneValue → ℕ) (k : ℕ) → k < length self.old.columns
            → weight f (slice_index_or self.new.cells k [])
            ≡ weight f (slice_index_or self.old.cells k []) + written f k
            (rows_along prepared.entry.lost prepared.entry.stamp self.old.cells)
            prepared.entry.gained }
        ensures before { (m : ℕ) → m < prepared.entry.stamp
            → relation_at self.new m ≡ relation_at self.old m }
        ensures from { (m : ℕ) → prepared.entry.stamp ≤ m → m < forever
            → relation_at self.new m ≡ rows_after self.old prepared.entry }
        ensures later { (m : ℕ) → prepared.entry.stamp < m → AllBefore self.new m }
        ensures valid { IsStore self.new }
    {
        let PreparedTable {
            stamp,
            lost,
            gained,
            after,
        } = prepared;
        let next = self.keys.len();
        let count = gained.len();
        lose_each(&mut self.others, &self.logs, self.live.len(), &lost, count);
        apply(&mut self.keys, &mut self.logs, &lost, gained, stamp);
        gain_each(&mut self.others, &self.logs, &lost, next, count);
        change_index(&mut self.live, after);
    }

    /// Copies of the current rows, ascending. Each row is one step. The one error is `NoMemory`,
    /// where memory runs out.
    pub fn current<L: Ledger>(&self, steps: &mut Steps<L>) -> Result<Vec<Row>, NoMemory>
        ensures rows { (m : ℕ) → m < forever → AllBefore self.now (m + 1)
            → IfOk result (λ rows. rows.items ≡ relation_at self.now m) }
        ensures relation { IfOk result (λ rows. IsRelation self.now.columns rows.items) }
        ensures cost { IfOk result (λ rows. steps.new ≡ steps.old + length rows.items) }
    {
        copy_rows(self.alloc, &self.logs, &self.live.copy()?, steps)
    }

    /// What the table has now is a relation of its columns.
    pub fn rows_are_a_relation(&self)
        ensures { (m : ℕ) → m < forever → AllBefore self.now (m + 1)
            → IsRelation self.now.columns (relation_at self.now m) }
    {
        let _count = self.live.len();
    }

    /// Whether the table has this row now, found by binary search. What the table has now it has
    /// from its last stamp on. It takes no memory.
    pub fn holds(&self, row: &GivenRow<'_>) -> bool
        ensures now { (m : ℕ) → m < forever → AllBefore self.now (m + 1)
            → result ≡ has row_cmp row.now (relation_at self.now m) }
        ensures still { (m n : ℕ) → m ≤ n → n < forever → AllBefore self.now (m + 1)
            → relation_at self.now n ≡ relation_at self.now m }
    {
        if row.len() != self.columns.len() {
            return false;
        }
        match place_in(&self.logs, &self.live, row) {
            Ok(_) => true,
            Err(_) => false,
        }
    }

    /// The current rows from the one cut to the other, borrowed, ascending. They are found by
    /// binary search: for any number of rows in a table of n it takes in the order of log n
    /// comparisons; each value that is looked at is one step. What the table has now it has from
    /// its last stamp on. It takes no memory.
    pub fn between(&self, from: &Cut, to: &Cut) -> BorrowedRows<'_>
        requires from { length from.now.values ≤ length self.now.columns }
        requires to { length to.now.values ≤ length self.now.columns }
        ensures rows { (m : ℕ) → m < forever → AllBefore self.now (m + 1)
            → result ≡ between from.now to.now (relation_at self.now m) }
    {
        let end = count_before(&self.logs, &self.live, to);
        let start = count_before(&self.logs, &self.live, from).min(end);
        BorrowedRows::over(&self.logs, &self.live, start, end)
    }

    /// Keeps from now on an index of the column at this place, where there is none: its ids are
    /// sorted once, and each change of few of the rows moves those of its rows. A change of many
    /// takes the index away. What the table stands for stays as it is, and so does each index that
    /// it keeps. The one error is `NoMemory`, where memory runs out: then it keeps the indexes that
    /// it kept.
    pub fn index_column(&mut self, column: usize) -> Result<(), NoMemory>
        requires within { column < length self.old.columns }
        ensures same { self.new ≡ record self.old
            { spare = self.new.spare; indexed = self.new.indexed } }
        ensures done { OnOk result (self.new.indexed ≡ indexed_with column self.old.indexed) }
        ensures failed { OnErr result (self.new.indexed ≡ self.old.indexed) }
        ensures spare { self.old.spare ≤ self.new.spare }
    {
        if index_of(&self.others, column).is_some() {
            return Ok(());
        }
        let index = ValueIndex::of(self.alloc, &self.logs, column, &self.live.copy()?)?;
        self.others.push(index)?;
        Ok(())
    }

    /// The current rows that have this value in the column at this place, borrowed, each once, in
    /// the order of their ids: `None` exactly where no index of the column is kept. They are found
    /// by binary search: in a table of n rows by in the order of log n comparisons. What the table
    /// has now it has from its last stamp on. It takes no memory.
    pub fn rows_with(&self, column: usize, value: &Value) -> Option<BorrowedRows<'_>>
        ensures kept { is_some result ≡ is_indexed column self.now.indexed }
        ensures rows { (m : ℕ) → m < forever → AllBefore self.now (m + 1)
            → IfSome result (λ rows. rows ≡ rows_with column value.now
            (rows_from 0 m self.now.keys self.now.cells)) }
    {
        match index_of(&self.others, column) {
            Some(at) => Some(self.others[at].rows_with(&self.logs, value)),
            None => None,
        }
    }

    /// Whether so many rows are few in the table: no more than 64, or than one in 64 of its rows
    /// where that is more. It takes no memory.
    pub fn are_few(&self, rows: usize) -> bool
        ensures { (m : ℕ) → m < forever → AllBefore self.now (m + 1)
            → result ≡ nat_le rows (few_of (length (relation_at self.now m))) }
    {
        rows <= few_of(self.live.len())
    }

    /// A scan of the keys, ascending by id. It takes no memory.
    pub fn scan_keys(&self) -> KeyScan<'_>
        ensures entries { result ≡ keys_from 0 self.now.keys }
        ensures valid { IsStore self.now }
    {
        KeyScan::over(&self.keys)
    }

    /// A scan of the entries of the column with this name, ascending by id and start: `None`
    /// exactly where the table has no such column. It takes no memory.
    pub fn scan_column(&self, name: &Name) -> Option<CellScan<'_>>
        ensures entries { result ≡ column_of self.now name.now }
        ensures valid { IsStore self.now }
    {
        match column_place(&self.columns, name) {
            Some(column) => Some(self.logs[column].scan(&self.keys)),
            None => None,
        }
    }

    /// The columns, in the order of their names. It takes no memory.
    pub fn columns(&self) -> &[(Name, ColType)]
        ensures { result.now ≡ self.now.columns }
    {
        &self.columns
    }

    /// How many columns the table has. It takes no memory.
    pub fn width(&self) -> usize
        ensures columns { result ≡ length self.now.columns }
        ensures cells { result ≡ length self.now.cells }
    {
        self.logs.len()
    }

    /// A scan of the entries of the column at this place, in the order of the columns' names,
    /// ascending by id and start. It takes no memory.
    pub fn scan_at(&self, column: usize) -> CellScan<'_>
        requires { column < length self.now.columns }
        ensures { result ≡ slice_index_or self.now.cells column [] }
    {
        self.logs[column].scan(&self.keys)
    }

    /// How many entries the column at this place has. It takes no memory.
    pub fn entries_at(&self, column: usize) -> u64
        requires { column < length self.now.columns }
        ensures { result ≡ length (slice_index_or self.now.cells column []) }
    {
        self.logs[column].count() as u64
    }

    /// How many keys the table has.
    pub fn keys(&self) -> u64
        ensures { result ≡ length self.now.keys }
    {
        self.keys.len() as u64
    }

    /// How many entries the column with this name has: `None` exactly where the table has no such
    /// column.
    pub fn entries(&self, name: &Name) -> Option<u64>
        ensures { result ≡ option_map length (column_of self.now name.now) }
    {
        match column_place(&self.columns, name) {
            Some(column) => Some(self.logs[column].count() as u64),
            None => None,
        }
    }

    /// How many cells the table has: the entries of all columns together. It takes no memory.
    pub fn cells(&self) -> u64
        ensures { result ≡ cells_in self.now.cells }
    {
        count_cells(&self.logs)
    }
}

impl StoredTable {
    ghost use Rattle.std.specs.Prelude.{◌≡◌, ◌<◌, ◌≤◌, ℕ, true};
    ghost use Rattle.relations_spec.specs.Spans.{forever};
    ghost use Rattle.history_store.specs.Store.{relation_at};

    /// Whether both tables have the same rows from the moment on: no stamp in them is later, and the
    /// rows that they have now are the same. Each key and write is looked at, and where none is
    /// from later each row. It takes no memory.
    pub fn shows_same(&self, other: &StoredTable, from: u64) -> bool
        ensures { result ≡ true → (m : ℕ) → from ≤ m → m < forever
            → relation_at self.now m ≡ relation_at other.now m }
    {
        if self.logs.len() != other.logs.len() {
            return false;
        }
        if !is_settled(&self.keys, &self.logs, from) {
            return false;
        }
        if !is_settled(&other.keys, &other.logs, from) {
            return false;
        }
        same_rows(&self.logs, &self.live, &other.logs, &other.live)
    }
}
