//! A table that keeps its history plainly.
//!
//! It is the earlier form of the store, made simpler still: each row owns its values. It stands for
//! what the stored table keeps in columns, byte buffers, links between cells and indexes; here is a
//! list of rows in the order of their ids, each with the period of its key and, for each column,
//! what it had there, oldest first. Whatever is asked is looked up from the first row to the last.

use prima_base::{FOREVER, NoMemory, Row, Val, Value};
use std::alloc::Global;

/// How many rows a table with an index may lose or gain before the index goes, whatever its size.
const FEW: usize = 64;

/// A value, with the first moment at which a row has it and the first at which it no longer has it.
#[derive(Drop)]
pub struct PlainCell {
    pub value: Value,
    pub start: u64,
    pub end: u64,
}

/// A row: the first moment of its key and the first after it, and its cells in each column, oldest
/// first.
#[derive(Drop)]
pub struct PlainRow {
    pub start: u64,
    pub end: u64,
    pub columns: Vec<Vec<PlainCell>>,
}

/// The rows that there ever were, by their ids, and the columns that have an index.
#[derive(Drop)]
pub struct PlainTable {
    alloc: Global,
    pub rows: Vec<PlainRow>,
    indexed: Vec<usize>,
}

// From the stamp on the row has this value, which is written only where it had another.
fn write(cells: &mut Vec<PlainCell>, value: &Value, stamp: u64) -> Result<(), NoMemory> {
    if let Some(newest) = cells.last_mut() {
        if newest.value == *value {
            return Ok(());
        }
        newest.end = stamp;
    }
    cells.push(PlainCell {
        value: value.copy()?,
        start: stamp,
        end: FOREVER,
    })?;
    Ok(())
}

// At the stamp the newest cell ends.
fn end_newest(cells: &mut Vec<PlainCell>, stamp: u64) {
    if let Some(newest) = cells.last_mut() {
        newest.end = stamp;
    }
}

impl PlainRow {
    // A row that begins at the stamp.
    fn begun(alloc: Global, row: &Row, stamp: u64) -> Result<PlainRow, NoMemory> {
        let mut columns = Vec::new(alloc);
        for value in row.values() {
            let mut cells = Vec::new(alloc);
            write(&mut cells, value, stamp)?;
            columns.push(cells)?;
        }
        Ok(PlainRow {
            start: stamp,
            end: FOREVER,
            columns,
        })
    }

    // From the stamp on the row has these values.
    fn become_row(&mut self, row: &Row, stamp: u64) -> Result<(), NoMemory> {
        for (column, value) in row.values().iter().enumerate() {
            if let Some(cells) = self.columns.get_mut(column) {
                write(cells, value, stamp)?;
            }
        }
        Ok(())
    }

    // At the stamp the row ends.
    fn end(&mut self, stamp: u64) {
        self.end = stamp;
        for column in 0..self.columns.len() {
            if let Some(cells) = self.columns.get_mut(column) {
                end_newest(cells, stamp);
            }
        }
    }

    /// The cells of the column at this place, oldest first.
    pub fn cells_at(&self, column: usize) -> &[PlainCell] {
        match self.columns.get(column) {
            Some(cells) => cells,
            None => &[],
        }
    }

    // A copy of what the row had last.
    fn newest(&self, alloc: Global) -> Result<Row, NoMemory> {
        let mut values = Vec::new(alloc);
        for cells in &self.columns {
            if let Some(newest) = cells.last() {
                values.push(newest.value.copy()?)?;
            }
        }
        Ok(Row::new(alloc, values))
    }

    // What the row has at the moment, column by column, borrowed; none where its key does not have
    // the moment.
    fn values_at(&self, alloc: Global, moment: u64) -> Result<Option<Vec<Val<'_>>>, NoMemory> {
        if moment < self.start || self.end <= moment {
            return Ok(None);
        }
        let mut values = Vec::new(alloc);
        for cells in &self.columns {
            for cell in cells {
                if cell.start <= moment && moment < cell.end {
                    values.push(cell.value.lend())?;
                }
            }
        }
        Ok(Some(values))
    }
}

/// Whether the borrowed values are those of the row.
pub fn are_of(values: &[Val<'_>], row: &Row) -> bool {
    if values.len() != row.values().len() {
        return false;
    }
    for (place, value) in row.values().iter().enumerate() {
        if values.get(place) != Some(&value.lend()) {
            return false;
        }
    }
    true
}

impl PlainTable {
    /// A table that never had a row.
    pub fn new(alloc: Global) -> PlainTable {
        PlainTable {
            alloc,
            rows: Vec::new(alloc),
            indexed: Vec::new(alloc),
        }
    }

    /// The rows at the moment, borrowed, by their ids.
    pub fn rows_by_id(&self, moment: u64) -> Result<Vec<Vec<Val<'_>>>, NoMemory> {
        let mut rows = Vec::new(self.alloc);
        for row in &self.rows {
            if let Some(values) = row.values_at(self.alloc, moment)? {
                rows.push(values)?;
            }
        }
        Ok(rows)
    }

    /// The rows at the moment, borrowed, ascending.
    pub fn rows_at(&self, moment: u64) -> Result<Vec<Vec<Val<'_>>>, NoMemory> {
        let mut rows = self.rows_by_id(moment)?;
        rows.sort_unstable();
        Ok(rows)
    }

    /// Copies of the current rows, by their ids.
    pub fn current(&self) -> Result<Vec<Row>, NoMemory> {
        let mut rows = Vec::new(self.alloc);
        for row in &self.rows {
            if row.end == FOREVER {
                rows.push(row.newest(self.alloc)?)?;
            }
        }
        Ok(rows)
    }

    // How many rows there are now.
    fn current_rows(&self) -> usize {
        let mut count: usize = 0;
        for row in &self.rows {
            if row.end == FOREVER {
                count = count.wrapping_add(1);
            }
        }
        count
    }

    /// How many cells there are in the column at this place.
    pub fn cells_at(&self, column: usize) -> u64 {
        let mut count: u64 = 0;
        for row in &self.rows {
            count = count.wrapping_add(row.cells_at(column).len() as u64);
        }
        count
    }

    // The id of the current row with these values.
    fn id_of(&self, row: &Row) -> Result<Option<usize>, NoMemory> {
        for (id, plain) in self.rows.iter().enumerate() {
            if let Some(values) = plain.values_at(self.alloc, FOREVER - 1)? {
                if are_of(&values, row) {
                    return Ok(Some(id));
                }
            }
        }
        Ok(None)
    }

    /// Whether the row is there now.
    pub fn holds(&self, row: &Row) -> Result<bool, NoMemory> {
        Ok(self.id_of(row)?.is_some())
    }

    /// How many rows are few now: 64, or one in 64 where that is more.
    pub fn few(&self) -> usize {
        FEW.max(self.current_rows() / FEW)
    }

    /// Whether the column at this place has an index.
    pub fn is_indexed(&self, column: usize) -> bool {
        self.indexed.contains(&column)
    }

    /// From now on the column at this place has an index.
    pub fn index(&mut self, column: usize) -> Result<(), NoMemory> {
        if !self.is_indexed(column) {
            self.indexed.push(column)?;
        }
        Ok(())
    }

    /// From now on no column has an index.
    pub fn forget_indexes(&mut self) {
        self.indexed.clear();
    }

    /// The current rows that are not among these.
    pub fn without(&self, rows: &[Row]) -> Result<Vec<Row>, NoMemory> {
        let mut others = Vec::new(self.alloc);
        for row in self.current()? {
            if !rows.contains(&row) {
                others.push(row)?;
            }
        }
        Ok(others)
    }

    /// Those of the rows that are not there now.
    pub fn fresh(&self, rows: &[Row]) -> Result<Vec<Row>, NoMemory> {
        let mut others = Vec::new(self.alloc);
        for row in rows {
            if !self.holds(row)? {
                others.push(row.copy()?)?;
            }
        }
        Ok(others)
    }

    /// The rows after the change that loses and gains these, each once.
    pub fn after(&self, lost: &[Row], gained: &[Row]) -> Result<Vec<Row>, NoMemory> {
        let mut rows = self.without(lost)?;
        for row in gained {
            rows.push(row.copy()?)?;
        }
        rows.sort_unstable();
        rows.dedup();
        Ok(rows)
    }

    // Looks where the rows that are lost are, in their order.
    fn ids_of(&self, rows: &[Row]) -> Result<Vec<usize>, NoMemory> {
        let mut ids = Vec::new(self.alloc);
        for row in rows {
            if let Some(id) = self.id_of(row)? {
                ids.push(id)?;
            }
        }
        Ok(ids)
    }

    // From the stamp on the row with this id has these values; one with no id begins.
    fn put(&mut self, id: Option<&usize>, row: &Row, stamp: u64) -> Result<(), NoMemory> {
        if let Some(id) = id {
            if let Some(plain) = self.rows.get_mut(*id) {
                return plain.become_row(row, stamp);
            }
        }
        self.rows.push(PlainRow::begun(self.alloc, row, stamp)?)?;
        Ok(())
    }

    /// From the stamp on these current rows are lost, and these others gained; both ascend. Each
    /// lost row hands its id to the gained one at its place; what is left over ends, or begins with
    /// the next id. Of a change of many rows no index is left.
    pub fn change(&mut self, stamp: u64, lost: &[Row], gained: &[Row]) -> Result<(), NoMemory> {
        if lost.len() > self.few() || gained.len() > self.few() {
            self.forget_indexes();
        }
        let ids = self.ids_of(lost)?;
        for (place, row) in gained.iter().enumerate() {
            self.put(ids.get(place), row, stamp)?;
        }
        for id in ids.iter().skip(gained.len()) {
            if let Some(plain) = self.rows.get_mut(*id) {
                plain.end(stamp);
            }
        }
        Ok(())
    }
}
