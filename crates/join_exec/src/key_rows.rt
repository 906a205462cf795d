//! The rows of one key.

ghost use Rattle.std.specs.Prelude.{◌≡◌, ℕ, ◌+◌, ◌<◌, ◌≤◌, [], true, List, IfOk, OnOk};
ghost use Rattle.relations_spec.specs.Spans.{covers};
ghost use Rattle.prima_base.specs.declared.value.Value.{Value as OneValue};
ghost use Rattle.prima_base.specs.Timed.{entries_of};
ghost use Rattle.join_exec_spec.specs.BorrowedOutputs.{AllBorrowed};
ghost use Rattle.join_exec.specs.Entries.{HasRow, AllInTurn};
ghost use Rattle.join_exec.specs.Walking.{all_left, unread, AreLeft, AreHeldUntil, AreAdded};
ghost use Rattle.join_exec.specs.Walking.{both};

use crate::cursor::Cursor;
use crate::left_entries::put_value;
use history_store::KeyEntry;
use prima_base::{NoMemory, Period, Steps, Val, meet};
use prima_base_rows::TimedRows;
use std::sync::ledger::Ledger;

// Puts the values that the row has at the moment, one of each column, and answers until when it has
// just these, and no later moment than `end`.
fn put_values<'a, L: Ledger>(
    values: &mut Vec<Val<'a>>,
    cursors: &mut [Cursor<'a>],
    id: u64,
    moment: u64,
    end: u64,
    steps: &mut Steps<L>,
) -> Result<u64, NoMemory>
    requires later { moment < end }
    requires none { values.old.items ≡ [] }
    requires turn { AllInTurn (all_left cursors.old) }
    requires there { (row : List OneValue) × HasRow (all_left cursors.old) id row moment }
    ensures left { OnOk result (AreLeft id moment (all_left cursors.old) (all_left cursors.new)) }
    ensures values { IfOk result (λ until.
        AreHeldUntil (all_left cursors.old) id moment until values.new.items) }
    ensures until { IfOk result (λ until. until ≤ end) }
    ensures cost { steps.new + unread cursors.new ≡ steps.old + unread cursors.old }
    ensures rises { steps.old ≤ steps.new }
{
    let mut until = end;
    for k in 0..cursors.len() {
        let ends = put_value(values, &mut cursors[k], id, moment, steps)?;
        until = until.min(ends);
    }
    Ok(until)
}

// Puts the rows that the key with this id has in the period after the others. `values` is empty,
// and is left so.
fn put_rows<'a, L: Ledger>(
    rows: &mut TimedRows<'a>,
    values: &mut Vec<Val<'a>>,
    cursors: &mut [Cursor<'a>],
    id: u64,
    period: Period,
    steps: &mut Steps<L>,
) -> Result<(), NoMemory>
    requires none { values.old.items ≡ [] }
    requires turn { AllInTurn (all_left cursors.old) }
    requires there { (m : ℕ) → covers period m ≡ true → (row : List OneValue)
        × HasRow (all_left cursors.old) id row m }
    ensures none { OnOk result (values.new.items ≡ []) }
    ensures left { OnOk result (AreLeft id period.end (all_left cursors.old)
        (all_left cursors.new)) }
    ensures rows { OnOk result (AreAdded period (all_left cursors.old) id
        (entries_of rows.old.items) (entries_of rows.new.items)) }
    ensures borrowed { AllBorrowed rows.old.items → OnOk result (AllBorrowed rows.new.items) }
    ensures cost { steps.new + unread cursors.new ≡ steps.old + unread cursors.old }
    ensures rises { steps.old ≤ steps.new }
{
    let mut moment = period.start();
    'moments: while moment < period.end() {
        let until = put_values(values, cursors, id, moment, period.end(), steps)?;
        rows.push_from(values, Period::between(moment, until))?;
        moment = until;
    }
    Ok(())
}

/// Puts the rows that the key has in the slice after the others. `values` is empty, and is left so.
pub(crate) fn put_key<'a, L: Ledger>(
    rows: &mut TimedRows<'a>,
    values: &mut Vec<Val<'a>>,
    cursors: &mut [Cursor<'a>],
    key: &KeyEntry,
    slice: Period,
    steps: &mut Steps<L>,
) -> Result<(), NoMemory>
    requires none { values.old.items ≡ [] }
    requires turn { AllInTurn (all_left cursors.old) }
    requires there { (m : ℕ) → covers (both key.now.period slice) m ≡ true → (row : List OneValue)
        × HasRow (all_left cursors.old) key.now.id row m }
    ensures none { OnOk result (values.new.items ≡ []) }
    ensures left { OnOk result (AreLeft (key.now.id + 1) 0 (all_left cursors.old)
        (all_left cursors.new)) }
    ensures rows { OnOk result (AreAdded (both key.now.period slice) (all_left cursors.old)
        key.now.id (entries_of rows.old.items) (entries_of rows.new.items)) }
    ensures borrowed { AllBorrowed rows.old.items → OnOk result (AllBorrowed rows.new.items) }
    ensures cost { steps.new + unread cursors.new ≡ steps.old + unread cursors.old }
    ensures rises { steps.old ≤ steps.new }
{
    match meet(key.period, slice) {
        None => Ok(()),
        Some(period) => put_rows(rows, values, cursors, key.id, period, steps),
    }
}
