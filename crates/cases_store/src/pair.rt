//! The two tables of a case, in which the same changes are made.

use crate::comparison::{Difference, Sides};
use cases_store_tables::{PlainTable, TestedTable, add_copies};
use history_store::StoredTable;
use prima_base::{ColType, Name, NoMemory, Row};
use std::alloc::Global;

/// A stored table, once there is one, and a plain one; their columns, their last stamp, and the
/// moments before and at each stamp.
#[derive(Drop)]
pub(crate) struct Pair {
    alloc: Global,
    columns: Vec<(Name, ColType)>,
    stored: Option<TestedTable>,
    plain: PlainTable,
    last: u64,
    moments: Vec<u64>,
}

impl Pair {
    /// Neither column nor table.
    pub(crate) fn new(alloc: Global) -> Pair {
        Pair {
            alloc,
            columns: Vec::new(alloc),
            stored: None,
            plain: PlainTable::new(alloc),
            last: 0,
            moments: Vec::new(alloc),
        }
    }

    /// Puts a column after the others.
    pub(crate) fn add_column(&mut self, name: Name, kind: ColType) -> Result<(), NoMemory> {
        self.columns.push((name, kind))?;
        Ok(())
    }

    pub(crate) fn columns(&self) -> &[(Name, ColType)] {
        &self.columns
    }

    pub(crate) fn stored(&self) -> Option<&StoredTable> {
        match &self.stored {
            Some(table) => Some(table.stored()),
            None => None,
        }
    }

    pub(crate) fn plain(&self) -> &PlainTable {
        &self.plain
    }

    /// The last stamp; 0 where there is none yet.
    pub(crate) fn last(&self) -> u64 {
        self.last
    }

    // The table of these rows, from the stamp on: whether there can be one.
    fn make_table(&mut self, stamp: u64, rows: &[Row]) -> Result<bool, NoMemory> {
        let mut columns = Vec::new(self.alloc);
        for (name, kind) in &self.columns {
            columns.push((name.copy()?, *kind))?;
        }
        let mut copies = Vec::new(self.alloc);
        add_copies(&mut copies, rows)?;
        self.stored = TestedTable::new(self.alloc, columns, stamp, copies)?;
        Ok(self.stored.is_some())
    }

    // Makes the change in the plain table, too.
    fn follow(&mut self, stamp: u64, lost: &[Row], gained: &[Row]) -> Result<(), NoMemory> {
        self.plain.change(stamp, lost, gained)?;
        if self.last.wrapping_add(1) < stamp {
            self.moments.push(stamp.saturating_sub(1))?;
        }
        self.moments.push(stamp)?;
        self.last = stamp;
        Ok(())
    }

    /// Makes the change that loses and gains these rows, which are sorted; the first one makes the
    /// table: whether it is one.
    pub(crate) fn change(
        &mut self,
        stamp: u64,
        lost: &mut Vec<Row>,
        gained: &mut Vec<Row>,
    ) -> Result<bool, NoMemory> {
        lost.sort_unstable();
        lost.dedup();
        gained.sort_unstable();
        gained.dedup();
        let is_change = match &mut self.stored {
            Some(table) => table.change(stamp, lost, gained)?,
            None => lost.is_empty() && self.make_table(stamp, gained)?,
        };
        if is_change {
            self.follow(stamp, lost, gained)?;
        }
        Ok(is_change)
    }

    /// Makes it by all the rows that the table has after it. Of the rows to be lost and gained only
    /// those are left that are.
    pub(crate) fn change_whole(
        &mut self,
        stamp: u64,
        lost: &mut Vec<Row>,
        gained: &mut Vec<Row>,
    ) -> Result<bool, NoMemory> {
        let mut rows = self.plain.after(lost, gained)?;
        *lost = self.plain.without(&rows)?;
        *gained = self.plain.fresh(&rows)?;
        let Some(table) = &mut self.stored else {
            return self.change(stamp, lost, gained);
        };
        if !table.change_to(stamp, &mut rows)? {
            return Ok(false);
        }
        lost.sort_unstable();
        self.follow(stamp, lost, gained)?;
        Ok(true)
    }

    /// Asks for an index of the column at this place, where there is such a column.
    pub(crate) fn index(&mut self, column: u64) -> Result<(), NoMemory> {
        if let Some(table) = &mut self.stored {
            if table.index(column as usize)? {
                self.plain.index(column as usize)?;
            }
        }
        Ok(())
    }

    /// Goes on with the table that the scans make, which has no index: whether they make one.
    pub(crate) fn restore(&mut self) -> Result<bool, NoMemory> {
        let Some(table) = &mut self.stored else {
            return Ok(true);
        };
        let is_made = table.restore()?;
        if is_made {
            self.plain.forget_indexes();
        }
        Ok(is_made)
    }

    /// In what the tables differ now, looked at by these rows.
    pub(crate) fn compare_now(&self, rows: &[Row]) -> Result<Option<Difference>, NoMemory> {
        let Some(table) = &self.stored else {
            return Ok(None);
        };
        let sides = Sides {
            alloc: self.alloc,
            columns: &self.columns,
            stored: table.stored(),
            plain: &self.plain,
        };
        sides.compare_now(rows)
    }

    /// In what their histories differ.
    pub(crate) fn compare_histories(&self) -> Result<Option<Difference>, NoMemory> {
        let Some(table) = &self.stored else {
            return Ok(None);
        };
        let Some(restored) = table.restored()? else {
            return Ok(Some(Difference::Restored));
        };
        let sides = Sides {
            alloc: self.alloc,
            columns: &self.columns,
            stored: table.stored(),
            plain: &self.plain,
        };
        sides.compare_histories(&restored, &self.moments)
    }
}
