//! A stored table, with what its calls require tested before each. A test says what `true` means,
//! which is what a call requires. Where it said `false` too often a change of a case would not be
//! made, and the reply of the case notes that.

ghost use Rattle.std.specs.Prelude.{◌≡◌, ◌+◌, ◌<◌, ◌≤◌, ℕ, true, false, List, [], map, length};
ghost use Rattle.std.specs.Prelude.{IfOk, IfSome, OnOk, All, slice_index_or};
ghost use Rattle.relations_spec.specs.Sets.{In, has, BeforeAll};
ghost use Rattle.relations_spec.specs.Spans.{forever};
ghost use Rattle.prima_base.specs.Order.{row_cmp, bytes_cmp, shown};
ghost use Rattle.prima_base.specs.Columns.{has_type, IsValid, IsRow, IsRelation, AreColumns};
ghost use Rattle.prima_base.specs.Columns.{names_of};
ghost use Rattle.prima_base.specs.declared.value.Value.{Value as OneValue};
ghost use Rattle.history_store.specs.Store.{Store, AllBefore, IsStore, relation_at};
ghost use Rattle.history_store.specs.Scans.{seen_cell};
ghost use Rattle.history_store.specs.Restoring.{cell_of, entries_of};

use crate::moment::ids_shown;
use crate::row::add_copies;
use crate::row_comparison::{NOW, are_in_order};
use history_store::{BorrowedRows, Cell, CellEntry, CellScan, Cut, GivenRow, KeyScan, StoredTable};
use prima_base::{ColType, FOREVER, Name, NoMemory, Period, Row, Steps, Value};
use prima_base_counter::fresh_steps;
use std::alloc::Global;
use std::cmp::Ordering;
use std::marker::{Brand, Model};
use std::sync::ledger::{Blank, Ledger};

// How many rows that are there are given once more with those that a change gains.
const HELD_ROWS: usize = 8;

/// A stored table, its columns, and the last stamp that was tried.
#[derive(Drop)]
pub struct TestedTable {
    alloc: Global,
    columns: Vec<(Name, ColType)>,
    stored: StoredTable,
    last: u64,
}

impl Model for TestedTable {
    ghost use Rattle.std.specs.Prelude.{◌≡◌, ◌<◌, ℕ};
    ghost use Rattle.history_store.specs.Store.{Store, AllBefore};

    ghost Value = { Store };

    ghost view = { λ t. t.stored };

    ghost invariant = { λ t. (t.stored.columns ≡ t.columns.items)
        × ((m : ℕ) → t.last < m → AllBefore t.stored m) };
}

// Whether the name is before those of the columns.
fn is_before(name: &Name, columns: &[(Name, ColType)]) -> bool
    ensures { result ≡ true → BeforeAll bytes_cmp name.now (names_of columns.now) }
{
    match columns {
        [] => true,
        [first, rest @ ..] => match name.cmp(&first.0) {
            Ordering::Less => is_before(name, rest),
            Ordering::Equal | Ordering::Greater => false,
        },
    }
}

// Whether the columns stand in the order of their names.
fn are_columns(columns: &[(Name, ColType)]) -> bool
    ensures { result ≡ true → AreColumns columns.now }
{
    match columns {
        [] => true,
        [first, rest @ ..] => {
            if !is_before(&first.0, rest) {
                return false;
            }
            are_columns(rest)
        }
    }
}

// Whether the value is of this type.
fn has_type(kind: ColType, value: &Value) -> bool
    ensures { result ≡ has_type kind value.now }
{
    match (kind, value) {
        (ColType::Int, Value::Int(_)) | (ColType::Text, Value::Text(_)) => true,
        (ColType::Int, Value::Text(_)) | (ColType::Text, Value::Int(_)) => false,
    }
}

// Whether there is a value of its type for each column.
fn is_row(columns: &[(Name, ColType)], values: &[Value]) -> bool
    ensures { result ≡ true → IsRow columns.now values.now }
{
    match columns {
        [] => match values {
            [] => true,
            _ => false,
        },
        [column, columns @ ..] => match values {
            [] => false,
            [value, values @ ..] => {
                if !has_type(column.1, value) {
                    return false;
                }
                is_row(columns, values)
            }
        },
    }
}

// Whether each of the rows fits the columns.
fn are_rows(columns: &[(Name, ColType)], rows: &[Row]) -> bool
    ensures { result ≡ true → All (IsRow columns.now) rows.now }
{
    for row in rows {
        if !is_row(columns, row.values()) {
            return false;
        }
    }
    true
}

// Sorts the rows, and keeps each once: whether they then are a relation of the columns.
fn become_relation(columns: &[(Name, ColType)], rows: &mut Vec<Row>) -> bool
    ensures { result ≡ true → IsRelation columns.now rows.new.items }
{
    rows.sort_unstable();
    rows.dedup();
    are_rows(columns, rows)
}

// Whether the table has the row.
fn has_row(stored: &StoredTable, row: &Row) -> bool
    ensures { (m : ℕ) → m < forever → AllBefore stored.now (m + 1)
        → result ≡ has row_cmp row.now (relation_at stored.now m) }
{
    let row = GivenRow::borrowed(row.values());
    stored.holds(&row)
}

// Whether the table has each of the rows.
fn are_there(stored: &StoredTable, rows: &[Row]) -> bool
    ensures { result ≡ true → (m : ℕ) → m < forever → AllBefore stored.now (m + 1)
        → All (λ row. has row_cmp row (relation_at stored.now m) ≡ true) rows.now }
{
    for row in rows {
        if !has_row(stored, row) {
            return false;
        }
    }
    true
}

// Whether the table has none of the rows.
fn are_fresh(stored: &StoredTable, rows: &[Row]) -> bool
    ensures { result ≡ true → (m : ℕ) → m < forever → AllBefore stored.now (m + 1)
        → All (λ row. has row_cmp row (relation_at stored.now m) ≡ false) rows.now }
{
    for row in rows {
        if has_row(stored, row) {
            return false;
        }
    }
    true
}

// The rows, borrowed.
fn given_rows<'a>(alloc: Global, rows: &'a [Row]) -> Result<Vec<GivenRow<'a>>, NoMemory>
    ensures { IfOk result (λ v. v.items ≡ rows.now) }
{
    let mut given = Vec::new(alloc);
    for row in rows {
        given.push(GivenRow::borrowed(row.values()))?;
    }
    Ok(given)
}

// Copies of the current rows, made with a counter of the ledger.
fn current_counted<L: Ledger>(stored: &StoredTable, blank: Blank) -> Result<Vec<Row>, NoMemory>
    requires name { blank.name ≡ L.name }
    requires parts { blank.parts ≡ L.parts }
    requires some { 0 < blank.parts }
{
    let mut steps: Steps<L> = fresh_steps(blank);
    stored.current(&mut steps)
}

/// Copies of the current rows of a stored table.
pub fn current(stored: &StoredTable) -> Result<Vec<Row>, NoMemory> {
    current_counted::<Brand>(stored, Blank::new(1))
}

// Makes the change that gains these rows, given beside some that are there.
#[tactic(auto, using(crate::proofs::TestedLaws::still_before))]
fn unite(
    alloc: Global,
    stored: &mut StoredTable,
    columns: &[(Name, ColType)],
    stamp: u64,
    gained: &[Row],
) -> Result<bool, NoMemory>
    requires same { stored.old.columns ≡ columns.now }
    requires before { AllBefore stored.old stamp }
    requires valid { stamp < forever }
    ensures same { stored.new.columns ≡ columns.now }
    ensures later { (m : ℕ) → stamp < m → AllBefore stored.new m }
{
    let mut rows = current(stored)?;
    rows.truncate(HELD_ROWS);
    add_copies(&mut rows, gained)?;
    if !become_relation(columns, &mut rows) {
        return Ok(false);
    }
    let prepared = stored.prepare_union(stamp, given_rows(alloc, &rows)?)?;
    stored.install(prepared);
    Ok(true)
}

// Makes the change that loses and gains these rows, where it is one. One that loses none is made by
// a union at each even stamp.
#[tactic(auto, using(crate::proofs::TestedLaws::still_before))]
fn change_rows(
    alloc: Global,
    stored: &mut StoredTable,
    columns: &[(Name, ColType)],
    stamp: u64,
    lost: &mut Vec<Row>,
    gained: &mut Vec<Row>,
) -> Result<bool, NoMemory>
    requires same { stored.old.columns ≡ columns.now }
    requires before { AllBefore stored.old stamp }
    requires valid { stamp < forever }
    ensures same { stored.new.columns ≡ columns.now }
    ensures later { (m : ℕ) → stamp < m → AllBefore stored.new m }
{
    if !become_relation(columns, lost) {
        return Ok(false);
    }
    if !become_relation(columns, gained) {
        return Ok(false);
    }
    if !are_there(stored, lost) {
        return Ok(false);
    }
    if !are_fresh(stored, gained) {
        return Ok(false);
    }
    if lost.is_empty() && stamp % 2 == 0 {
        return unite(alloc, stored, columns, stamp, gained);
    }
    let lost = given_rows(alloc, lost)?;
    let prepared = stored.prepare_change(stamp, &lost, given_rows(alloc, gained)?)?;
    stored.install(prepared);
    Ok(true)
}

// Makes the change to these rows, where they are a relation.
fn change_to(
    stored: &mut StoredTable,
    columns: &[(Name, ColType)],
    stamp: u64,
    rows: &mut Vec<Row>,
) -> Result<bool, NoMemory>
    requires same { stored.old.columns ≡ columns.now }
    requires before { AllBefore stored.old stamp }
    requires valid { stamp < forever }
    ensures same { stored.new.columns ≡ columns.now }
    ensures later { (m : ℕ) → stamp < m → AllBefore stored.new m }
{
    if !become_relation(columns, rows) {
        return Ok(false);
    }
    let prepared = stored.prepare(stamp, rows)?;
    stored.install(prepared);
    Ok(true)
}

// The periods that a scan of the keys hands out.
fn take_keys<L: Ledger>(
    alloc: Global,
    mut scan: KeyScan<'_>,
    steps: &mut Steps<L>,
) -> Result<Vec<Period>, NoMemory>
    ensures { IfOk result (λ v. v.items ≡ map (λ k. k.period) scan.entry) }
{
    let mut keys = Vec::new(alloc);
    'keys: while let Some(key) = scan.next_key(steps) {
        keys.push(key.period)?;
    }
    Ok(keys)
}

// The entry as `restore` takes it.
fn given_cell(entry: CellEntry<'_>) -> Cell<'_>
    ensures { cell_of result ≡ seen_cell entry.entry }
{
    Cell {
        id: entry.id,
        value: entry.value,
        period: entry.period,
    }
}

// The entries that a scan of a column hands out.
fn take_cells<'a, L: Ledger>(
    alloc: Global,
    mut scan: CellScan<'a>,
    steps: &mut Steps<L>,
) -> Result<Vec<Cell<'a>>, NoMemory>
    ensures cells { IfOk result (λ v. map cell_of v.items ≡ scan.entry) }
    ensures valid { IfOk result (λ v. All (λ c. IsValid c.value) (map cell_of v.items)) }
{
    let mut cells = Vec::new(alloc);
    'entries: while let Some(entry) = scan.next_cell(steps) {
        cells.push(given_cell(entry))?;
    }
    Ok(cells)
}

// The entries of each column.
fn take_columns<'a, L: Ledger>(
    alloc: Global,
    stored: &'a StoredTable,
    steps: &mut Steps<L>,
) -> Result<Vec<Vec<Cell<'a>>>, NoMemory>
    ensures cells { IfOk result (λ v. entries_of v.items ≡ stored.now.cells) }
    ensures valid { IfOk result (λ v. All (All (λ c. IsValid c.value)) (entries_of v.items)) }
{
    let mut columns = Vec::new(alloc);
    for column in 0..stored.width() {
        columns.push(take_cells(alloc, stored.scan_at(column), steps)?)?;
    }
    Ok(columns)
}

/// What the scans of a table hand out: the keys, and the entries of each column, whose values are
/// borrowed by the table.
#[derive(Drop)]
pub struct Scanned<'a> {
    pub keys: Vec<Period>,
    pub columns: Vec<Vec<Cell<'a>>>,
}

// Scans the keys and each column, with a counter of the ledger.
fn scan_counted<'a, L: Ledger>(
    alloc: Global,
    stored: &'a StoredTable,
    blank: Blank,
) -> Result<Scanned<'a>, NoMemory>
    requires name { blank.name ≡ L.name }
    requires parts { blank.parts ≡ L.parts }
    requires some { 0 < blank.parts }
    ensures keys { IfOk result (λ s. s.keys.items ≡ stored.now.keys) }
    ensures cells { IfOk result (λ s. entries_of s.columns.items ≡ stored.now.cells) }
    ensures values { IfOk result (λ s. All (All (λ c. IsValid c.value))
        (entries_of s.columns.items)) }
    ensures valid { IfOk result (λ s. IsStore stored.now) }
{
    let mut steps: Steps<L> = fresh_steps(blank);
    let keys = take_keys(alloc, stored.scan_keys(), &mut steps)?;
    let columns = take_columns(alloc, stored, &mut steps)?;
    Ok(Scanned { keys, columns })
}

/// What the scans of a stored table hand out.
pub fn scan(alloc: Global, stored: &StoredTable) -> Result<Scanned<'_>, NoMemory>
    ensures keys { IfOk result (λ s. s.keys.items ≡ stored.now.keys) }
    ensures cells { IfOk result (λ s. entries_of s.columns.items ≡ stored.now.cells) }
    ensures values { IfOk result (λ s. All (All (λ c. IsValid c.value))
        (entries_of s.columns.items)) }
    ensures valid { IfOk result (λ s. IsStore stored.now) }
{
    scan_counted::<Brand>(alloc, stored, Blank::new(1))
}

// The table that the scans of this one make: none where the ids are not in the order of their rows.
fn restored_from(
    alloc: Global,
    columns: &[(Name, ColType)],
    stored: &StoredTable,
) -> Result<Option<StoredTable>, NoMemory>
    requires { stored.now.columns ≡ columns.now }
    ensures same { IfOk result (λ o. IfSome o (λ t. t.columns ≡ columns.now)) }
    ensures later { (m : ℕ) → AllBefore stored.now m
        → IfOk result (λ o. IfSome o (λ t. AllBefore t m)) }
{
    let scanned = scan(alloc, stored)?;
    let order = ids_shown(alloc, &scanned, NOW)?;
    let Scanned {
        keys,
        columns: cells,
    } = scanned;
    if !are_in_order(alloc, &keys, &cells, &order)? {
        return Ok(None);
    }
    let restored = StoredTable::restore(alloc, columns, keys, cells, &order)?;
    Ok(Some(restored))
}

/// The table's rows between the cuts: none where one of them has more values than there are
/// columns.
pub fn between<'a>(stored: &'a StoredTable, from: &Cut, to: &Cut) -> Option<BorrowedRows<'a>> {
    let width = stored.width();
    if from.values().len() > width || to.values().len() > width {
        return None;
    }
    Some(stored.between(from, to))
}

impl TestedTable {
    /// The table of these columns that has these rows from the stamp on: none where they are no
    /// relation of columns in the order of their names, or the stamp is no moment.
    pub fn new(
        alloc: Global,
        columns: Vec<(Name, ColType)>,
        stamp: u64,
        mut rows: Vec<Row>,
    ) -> Result<Option<TestedTable>, NoMemory> {
        if stamp == FOREVER || !are_columns(&columns) {
            return Ok(None);
        }
        if !become_relation(&columns, &mut rows) {
            return Ok(None);
        }
        let stored = StoredTable::new(alloc, &columns, stamp, &rows)?;
        Ok(Some(TestedTable {
            alloc,
            columns,
            stored,
            last: stamp,
        }))
    }

    /// Makes the change that loses and gains these rows, which are sorted: whether it was one of
    /// the table.
    pub fn change(
        &mut self,
        stamp: u64,
        lost: &mut Vec<Row>,
        gained: &mut Vec<Row>,
    ) -> Result<bool, NoMemory> {
        if stamp <= self.last || stamp == FOREVER {
            return Ok(false);
        }
        self.last = stamp;
        change_rows(
            self.alloc,
            &mut self.stored,
            &self.columns,
            stamp,
            lost,
            gained,
        )
    }

    /// Makes the change to these rows: whether it was one of the table.
    pub fn change_to(&mut self, stamp: u64, rows: &mut Vec<Row>) -> Result<bool, NoMemory> {
        if stamp <= self.last || stamp == FOREVER {
            return Ok(false);
        }
        self.last = stamp;
        change_to(&mut self.stored, &self.columns, stamp, rows)
    }

    /// Asks for an index of the column at this place: whether there is such a column.
    pub fn index(&mut self, column: usize) -> Result<bool, NoMemory> {
        if column >= self.stored.width() {
            return Ok(false);
        }
        self.stored.index_column(column)?;
        Ok(true)
    }

    /// Goes on with the table that the scans make: whether there is one.
    pub fn restore(&mut self) -> Result<bool, NoMemory> {
        match self.restored()? {
            Some(restored) => {
                self.stored = restored;
                Ok(true)
            }
            None => Ok(false),
        }
    }

    /// The table that the scans make: none where the ids are not in the order of their rows.
    pub fn restored(&self) -> Result<Option<StoredTable>, NoMemory>
        ensures same { IfOk result (λ o. IfSome o (λ t. t.columns ≡ self.now.columns)) }
        ensures later { (m : ℕ) → AllBefore self.now m
            → IfOk result (λ o. IfSome o (λ t. AllBefore t m)) }
    {
        restored_from(self.alloc, &self.columns, &self.stored)
    }

    /// The table.
    pub fn stored(&self) -> &StoredTable {
        &self.stored
    }
}
