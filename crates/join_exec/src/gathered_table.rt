//! The rows of all keys.

ghost use Rattle.std.specs.Prelude.{◌≡◌, ◌+◌, ◌≤◌, length, IfOk};
ghost use Rattle.prima_base.specs.Timed.{entries_of};
ghost use Rattle.join_exec_spec.specs.BorrowedOutputs.{AllBorrowed};
ghost use Rattle.history_store.specs.Store.{IsStore};
ghost use Rattle.join_exec.specs.Walking.{all_left, unread};
ghost use Rattle.join_exec.specs.Reading.{AreNames, entries_in, reads};
ghost use Rattle.join_exec.specs.Gathered.{columns_in, IsGathered};

use crate::cursor::Cursor;
use crate::key_rows::put_key;
use history_store::StoredTable;
use prima_base::{Name, NoMemory, Period, Steps};
use prima_base_rows::TimedRows;
use std::alloc::Global;
use std::sync::ledger::Ledger;

// All entries of each of these columns.
fn all_entries<'a>(
    alloc: Global,
    table: &'a StoredTable,
    columns: &[Name],
) -> Result<Vec<Cursor<'a>>, NoMemory>
    requires { AreNames table.now.columns columns.now }
    ensures left { IfOk result (λ v. all_left v.items ≡ columns_in table.now columns.now) }
    ensures unread { IfOk result (λ v. unread v.items ≡ entries_in table.now columns.now) }
{
    let mut cursors = Vec::with_capacity(alloc, columns.len())?;
    for name in columns {
        let Some(entries) = table.scan_column(name) else {
            // each name is that of a column of the table
            unreachable!();
        };
        cursors.push(Cursor {
            head: None,
            unread: entries,
        })?;
    }
    Ok(cursors)
}

// Reads the entries of a column that are left.
fn read_rest<L: Ledger>(cursor: &mut Cursor<'_>, steps: &mut Steps<L>)
    ensures all { length cursor.new.unread ≡ 0 }
    ensures cost { steps.new ≡ steps.old + length cursor.old.unread }
{
    'rest: while cursor.unread.next_cell(steps).is_some() {}
}

// Reads the entries that are left of each column.
fn read_all<L: Ledger>(cursors: &mut [Cursor<'_>], steps: &mut Steps<L>)
    ensures { steps.new ≡ steps.old + unread cursors.old }
{
    for k in 0..cursors.len() {
        read_rest(&mut cursors[k], steps);
    }
}

/// What each row had in these columns, in turn, at each moment of the slice: rows with the periods
/// in which they hold, all inside the slice. Where they come, and that a row comes once for each
/// longest run of equal values, is not promised: what is made of them is coalesced. It reads the
/// keys and the entries of these columns, once each, and begins with room for a row of each key.
/// Texts stay borrowed from the table. The one error is `NoMemory`, where memory runs out.
pub fn gather<'a, L: Ledger>(
    alloc: Global,
    table: &'a StoredTable,
    columns: &[Name],
    slice: Period,
    steps: &mut Steps<L>,
) -> Result<TimedRows<'a>, NoMemory>
    requires { AreNames table.now.columns columns.now }
    ensures valid { IsStore table.now }
    ensures gathered { IfOk result (λ rows.
        IsGathered table.now slice columns.now (entries_of rows.items)) }
    ensures borrowed { IfOk result (λ rows. AllBorrowed rows.items) }
    ensures cost { steps.new ≤ steps.old + reads table.now columns.now }
    ensures counted { IfOk result (λ _. steps.new ≡ steps.old + reads table.now columns.now) }
    ensures rises { steps.old ≤ steps.new }
{
    let mut keys = table.scan_keys();
    let mut cursors = all_entries(alloc, table, columns)?;
    let mut values = Vec::with_capacity(alloc, columns.len())?;
    let cells = keys.left().saturating_mul(columns.len());
    let mut rows = TimedRows::with_capacity(alloc, keys.left(), cells)?;
    'keys: while let Some(key) = keys.next_key(steps) {
        put_key(&mut rows, &mut values, &mut cursors, &key, slice, steps)?;
    }
    read_all(&mut cursors, steps);
    Ok(rows)
}
