//! A stored table and a plain one side by side: what each call shows, compared.

ghost use Rattle.std.specs.Prelude.{◌≡◌, ◌<◌};

use cases_store_tables::{
    NOW, PlainCell, PlainRow, PlainTable, Scanned, are_of, between, current, rows_shown, scan,
};
use history_store::{BorrowedRows, Cell, Cut, GivenRow, StoredTable};
use prima_base::{ColType, Name, NoMemory, Period, Row, Steps, Val, Value};
use prima_base_counter::fresh_steps;
use std::alloc::Global;
use std::cmp::Ordering;
use std::marker::Brand;
use std::sync::ledger::{Blank, Ledger};

/// In what two tables differ.
#[derive(Clone, Copy)]
pub(crate) enum Difference {
    Sizes,
    Rows,
    Holding,
    Between,
    RowsWith,
    Few,
    Keys,
    Cells,
    RowsAt(u64),
    Restored,
    Change,
}

/// The tables that are compared, and their columns.
#[derive(Clone, Copy)]
pub(crate) struct Sides<'a> {
    pub(crate) alloc: Global,
    pub(crate) columns: &'a [(Name, ColType)],
    pub(crate) stored: &'a StoredTable,
    pub(crate) plain: &'a PlainTable,
}

// Whether the values are these.
fn are_same(values: &[Val<'_>], others: &[Val<'_>]) -> bool {
    if values.len() != others.len() {
        return false;
    }
    for (place, value) in values.iter().enumerate() {
        match others.get(place) {
            Some(other) => {
                if value.compare(other) != Ordering::Equal {
                    return false;
                }
            }
            None => return false,
        }
    }
    true
}

// Whether the borrowed rows are those at these places, in their order, looked at with a counter of
// the ledger.
fn are_borrowed_counted<L: Ledger>(
    alloc: Global,
    mut borrowed: BorrowedRows<'_>,
    rows: &[Vec<Val<'_>>],
    places: &[usize],
    blank: Blank,
) -> Result<bool, NoMemory>
    requires name { blank.name ≡ L.name }
    requires parts { blank.parts ≡ L.parts }
    requires some { 0 < blank.parts }
{
    let mut steps: Steps<L> = fresh_steps(blank);
    let mut values = Vec::new(alloc);
    for (at, place) in places.iter().enumerate() {
        if at >= borrowed.len() {
            return Ok(false);
        }
        borrowed.lend(at, &mut values, &mut steps)?;
        match rows.get(*place) {
            Some(row) => {
                if !are_same(&values, row) {
                    return Ok(false);
                }
            }
            None => return Ok(false),
        }
    }
    Ok(borrowed.len() == places.len())
}

// The same; nobody asks the counter.
fn are_borrowed(
    alloc: Global,
    borrowed: BorrowedRows<'_>,
    rows: &[Vec<Val<'_>>],
    places: &[usize],
) -> Result<bool, NoMemory> {
    are_borrowed_counted::<Brand>(alloc, borrowed, rows, places, Blank::new(1))
}

// Whether the row is before those that begin with these values, or, with `after`, not after them.
fn is_before(row: &[Val<'_>], values: &[Value], after: bool) -> bool {
    for (place, value) in values.iter().enumerate() {
        if let Some(own) = row.get(place) {
            match own.compare(&value.lend()) {
                Ordering::Less => return true,
                Ordering::Greater => return false,
                Ordering::Equal => {}
            }
        }
    }
    after
}

// The first of the values, so many of them.
fn first_values(alloc: Global, row: &Row, len: usize) -> Result<Vec<Value>, NoMemory> {
    let mut values = Vec::new(alloc);
    for value in row.values().iter().take(len) {
        values.push(value.copy()?)?;
    }
    Ok(values)
}

// How many of the rows, which ascend, are before the cut at these values.
fn count_before(rows: &[Vec<Val<'_>>], values: &[Value], after: bool) -> usize {
    let mut count: usize = 0;
    for row in rows {
        if is_before(row, values, after) {
            count = count.wrapping_add(1);
        }
    }
    count
}

// A cut, and how many rows are before it.
#[derive(Drop)]
struct PlainCut {
    cut: Cut,
    before: usize,
}

// The cut before, or with `after` behind, what begins with the first values of the row, so many of
// them.
fn cut_at(
    alloc: Global,
    rows: &[Vec<Val<'_>>],
    row: &Row,
    len: usize,
    after: bool,
) -> Result<PlainCut, NoMemory> {
    let values = first_values(alloc, row, len)?;
    let before = count_before(rows, &values, after);
    let cut = if after {
        Cut::after(values)
    } else {
        Cut::before(values)
    };
    Ok(PlainCut { cut, before })
}

// The cuts at the row: before and after what begins with none of its values, with the first of
// them, and so on.
fn cuts_at(alloc: Global, rows: &[Vec<Val<'_>>], row: &Row) -> Result<Vec<PlainCut>, NoMemory> {
    let mut cuts = Vec::new(alloc);
    for len in 0..=row.values().len() {
        cuts.push(cut_at(alloc, rows, row, len, false)?)?;
        cuts.push(cut_at(alloc, rows, row, len, true)?)?;
    }
    Ok(cuts)
}

impl<'a> Sides<'a> {
    fn same_sizes(self) -> bool {
        if self.stored.keys() != self.plain.rows.len() as u64 {
            return false;
        }
        let mut cells: u64 = 0;
        for (column, (name, _)) in self.columns.iter().enumerate() {
            let count = self.plain.cells_at(column);
            if self.stored.entries(name) != Some(count) {
                return false;
            }
            cells = cells.wrapping_add(count);
        }
        self.stored.cells() == cells && self.stored.width() == self.columns.len()
    }

    // Whether the copies of the current rows are the plain table's.
    fn same_rows(self, rows: &[Vec<Val<'_>>]) -> Result<bool, NoMemory> {
        let copies = current(self.stored)?;
        if copies.len() != rows.len() {
            return Ok(false);
        }
        for (place, row) in copies.iter().enumerate() {
            match rows.get(place) {
                Some(values) => {
                    if !are_of(values, row) {
                        return Ok(false);
                    }
                }
                None => return Ok(false),
            }
        }
        Ok(true)
    }

    fn same_holding(self, rows: &[Row]) -> Result<bool, NoMemory> {
        for row in rows {
            if self.stored.holds(&GivenRow::borrowed(row.values())) != self.plain.holds(row)? {
                return Ok(false);
            }
        }
        Ok(true)
    }

    // Whether the rows between the two cuts are the same.
    fn same_between(
        self,
        rows: &[Vec<Val<'_>>],
        from: &PlainCut,
        to: &PlainCut,
    ) -> Result<bool, NoMemory> {
        let mut places = Vec::new(self.alloc);
        for place in from.before..to.before {
            places.push(place)?;
        }
        match between(self.stored, &from.cut, &to.cut) {
            Some(borrowed) => are_borrowed(self.alloc, borrowed, rows, &places),
            None => Ok(false),
        }
    }

    // The same for each two cuts at the row.
    fn same_cuts(self, rows: &[Vec<Val<'_>>], row: &Row) -> Result<bool, NoMemory> {
        let cuts = cuts_at(self.alloc, rows, row)?;
        for from in &cuts {
            for to in &cuts {
                if !self.same_between(rows, from, to)? {
                    return Ok(false);
                }
            }
        }
        Ok(true)
    }

    // Whether the rows with this value in the column are the same, and asked of an index or not.
    fn same_with(
        self,
        rows: &[Vec<Val<'_>>],
        column: usize,
        value: &Value,
    ) -> Result<bool, NoMemory> {
        let Some(borrowed) = self.stored.rows_with(column, value) else {
            return Ok(!self.plain.is_indexed(column));
        };
        if !self.plain.is_indexed(column) {
            return Ok(false);
        }
        let mut places = Vec::new(self.alloc);
        for (place, row) in rows.iter().enumerate() {
            if row.get(column) == Some(&value.lend()) {
                places.push(place)?;
            }
        }
        are_borrowed(self.alloc, borrowed, rows, &places)
    }

    // The same for each value of the row, each column, and one column too many.
    fn same_values(self, rows: &[Vec<Val<'_>>], row: &Row) -> Result<bool, NoMemory> {
        for value in row.values() {
            for column in 0..=self.columns.len() {
                if !self.same_with(rows, column, value)? {
                    return Ok(false);
                }
            }
        }
        Ok(true)
    }

    fn same_few(self) -> bool {
        let few = self.plain.few();
        self.stored.are_few(few) && !self.stored.are_few(few.saturating_add(1))
    }

    /// In what they differ now, looked at by these rows.
    pub(crate) fn compare_now(self, rows: &[Row]) -> Result<Option<Difference>, NoMemory> {
        if !self.same_sizes() {
            return Ok(Some(Difference::Sizes));
        }
        let current = self.plain.rows_at(NOW)?;
        if !self.same_rows(&current)? {
            return Ok(Some(Difference::Rows));
        }
        if !self.same_holding(rows)? {
            return Ok(Some(Difference::Holding));
        }
        if !self.same_few() {
            return Ok(Some(Difference::Few));
        }
        let by_id = self.plain.rows_by_id(NOW)?;
        for row in rows {
            if !self.same_cuts(&current, row)? {
                return Ok(Some(Difference::Between));
            }
            if !self.same_values(&by_id, row)? {
                return Ok(Some(Difference::RowsWith));
            }
        }
        Ok(None)
    }

    // In what the scans differ from the plain table.
    fn compare_scans(self, scanned: &Scanned<'_>) -> Option<Difference> {
        if !same_keys(&scanned.keys, &self.plain.rows) {
            return Some(Difference::Keys);
        }
        if scanned.columns.len() != self.columns.len() {
            return Some(Difference::Cells);
        }
        for (column, cells) in scanned.columns.iter().enumerate() {
            if !same_cells(cells, &self.plain.rows, column) {
                return Some(Difference::Cells);
            }
        }
        None
    }

    // Whether the table that the scans make shows the same.
    fn same_restored(self, restored: &StoredTable) -> Result<bool, NoMemory> {
        let sides = Sides {
            stored: restored,
            ..self
        };
        let rows = self.plain.rows_at(NOW)?;
        let scanned = scan(self.alloc, restored)?;
        Ok(sides.same_sizes() && sides.same_rows(&rows)? && sides.compare_scans(&scanned).is_none())
    }

    /// In what their histories differ: the scans, the rows at these moments, and the table that the
    /// scans make.
    pub(crate) fn compare_histories(
        self,
        restored: &StoredTable,
        moments: &[u64],
    ) -> Result<Option<Difference>, NoMemory> {
        let scanned = scan(self.alloc, self.stored)?;
        if let Some(difference) = self.compare_scans(&scanned) {
            return Ok(Some(difference));
        }
        for moment in moments {
            let rows = rows_shown(self.alloc, &scanned, *moment)?;
            let own = self.plain.rows_at(*moment)?;
            if rows.as_slice() != own.as_slice() {
                return Ok(Some(Difference::RowsAt(*moment)));
            }
        }
        if !self.same_restored(restored)? {
            return Ok(Some(Difference::Restored));
        }
        Ok(None)
    }
}

// Whether the keys have the periods of the rows.
fn same_keys(keys: &[Period], rows: &[PlainRow]) -> bool {
    if keys.len() != rows.len() {
        return false;
    }
    for (id, row) in rows.iter().enumerate() {
        match keys.get(id) {
            Some(key) => {
                if key.start() != row.start || key.end() != row.end {
                    return false;
                }
            }
            None => return false,
        }
    }
    true
}

// Whether the cells are those of the rows in the column at this place.
fn same_cells(cells: &[Cell<'_>], rows: &[PlainRow], column: usize) -> bool {
    let mut place: usize = 0;
    for (id, row) in rows.iter().enumerate() {
        for own in row.cells_at(column) {
            match cells.get(place) {
                Some(cell) => {
                    if !is_cell(cell, id, own) {
                        return false;
                    }
                }
                None => return false,
            }
            place = place.wrapping_add(1);
        }
    }
    place == cells.len()
}

// Whether the cell is this one of the row with this id.
fn is_cell(cell: &Cell<'_>, id: usize, own: &PlainCell) -> bool {
    cell.id == id as u64
        && cell.value == own.value.lend()
        && cell.period.start() == own.start
        && cell.period.end() == own.end
}
