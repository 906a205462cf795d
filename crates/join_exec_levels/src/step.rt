//! One more list of rows joined to the choices made so far.

ghost use Rattle.std.specs.Prelude.{◌≡◌, ◌++◌, map, IfOk, OnOk, List};
ghost use Rattle.std.specs.List.{flat_map};
ghost use Rattle.std.specs.BTreeMap as tree;
ghost use Rattle.prima_base.specs.declared.value.Value.{Value as OneValue};
ghost use Rattle.prima_base.specs.Order.{row_cmp, shown, is_borrowed};
ghost use Rattle.prima_base.specs.Timed.{entry_of, entries_of};
ghost use Rattle.cond_expr.specs.Rows.{AreValid};
ghost use Rattle.cond_expr.specs.Seen.{test};
ghost use Rattle.cond_expr.specs.declared.expr.Column.{Column as OneColumn};
ghost use Rattle.join_exec_spec.specs.BorrowedOutputs.{BorrowedValues, RowBorrows, RowsBorrow};
ghost use Rattle.join_exec_spec.specs.Choosing.{paired};
ghost use Rattle.join_exec_levels.specs.Grouping.{rows_of_runs};
ghost use Rattle.join_exec_spec.specs.Keeping.{values_at, meets, meets_all, passing, in_group};
ghost use Rattle.join_exec_spec.specs.Keeping.{borrowed_tests, IsValidRow, AllValid};

use crate::group::{Group, Run};
use crate::key::{Key, values_at};
use cond_expr::{Column, Cond, holds};
use prima_base::{NoMemory, TimedRow, Val, meet};
use std::alloc::Global;
use std::collections::BTreeMap;

// Whether the values meet the condition.
#[tactic(auto, using(join_exec_spec::proofs::Tests::met_is))]
pub(crate) fn values_meet(
    alloc: Global,
    cond: &Cond,
    columns: &[Column],
    values: &[Val<'_>],
) -> Result<bool, NoMemory>
    requires { AreValid values.now }
    ensures { IfOk result (λ b. b ≡ meets columns.now (test cond.now) (map shown values.now)) }
{
    let met = holds(alloc, cond, columns, values)?;
    Ok(met)
}

/// Whether the values, one a column, meet all of the conditions. They are tested in their order,
/// and none after the first that is not met.
pub fn all_met(
    alloc: Global,
    conds: &[&Cond],
    columns: &[Column],
    values: &[Val<'_>],
) -> Result<bool, NoMemory>
    requires { AreValid values.now }
    ensures { IfOk result (λ b. b ≡ meets_all columns.now (borrowed_tests conds.now)
        (map shown values.now)) }
{
    match conds {
        [] => Ok(true),
        [first, rest @ ..] => {
            if !values_meet(alloc, first, columns, values)? {
                return Ok(false);
            }
            all_met(alloc, rest, columns, values)
        }
    }
}

// Puts the values after the others. A borrowed text stays borrowed.
fn append<'a>(into: &mut Vec<Val<'a>>, values: &[Val<'a>]) -> Result<(), NoMemory>
    ensures values { OnOk result (map shown into.new.items ≡ map shown into.old.items
        ++ map shown values.now) }
    ensures same { OnOk result (map is_borrowed into.new.items ≡ map is_borrowed into.old.items
        ++ map is_borrowed values.now) }
{
    for value in values {
        into.push(value.copy()?)?;
    }
    Ok(())
}

// The values of both. A borrowed text stays borrowed.
fn of_both<'a>(
    alloc: Global,
    first: &[Val<'a>],
    second: &[Val<'a>],
) -> Result<Vec<Val<'a>>, NoMemory>
    ensures values { IfOk result (λ v. map shown v.items ≡ map shown first.now
        ++ map shown second.now) }
    ensures same { IfOk result (λ v. map is_borrowed v.items ≡ map is_borrowed first.now
        ++ map is_borrowed second.now) }
{
    let mut values = Vec::with_capacity(alloc, first.len().saturating_add(second.len()))?;
    append(&mut values, first)?;
    append(&mut values, second)?;
    Ok(values)
}

// Puts the choice with the row after the others, in their common moments, where it has any and
// passes the tests.
fn put_pair<'a>(
    alloc: Global,
    columns: &[Column],
    tests: &[&Cond],
    choice: &TimedRow<'a>,
    row: &TimedRow<'a>,
    into: &mut Vec<TimedRow<'a>>,
) -> Result<(), NoMemory>
    requires choice { IsValidRow (map shown choice.now.values.items) }
    requires row { IsValidRow (map shown row.now.values.items) }
    ensures borrowed { (which : BorrowedValues) → (before : List OneColumn) → (own : List OneColumn)
        → RowsBorrow which (before ++ own) into.old.items
        → RowBorrows which before choice.now.values.items
        → RowBorrows which own row.now.values.items
        → OnOk result (RowsBorrow which (before ++ own) into.new.items) }
    ensures rows { OnOk result (entries_of into.new.items ≡ entries_of into.old.items
        ++ paired (passing columns.now (borrowed_tests tests.now)) (entry_of choice.now)
        (entry_of row.now)) }
{
    let Some(period) = meet(choice.period, row.period) else {
        return Ok(());
    };
    let values = of_both(alloc, &choice.values, &row.values)?;
    if !all_met(alloc, tests, columns, &values)? {
        return Ok(());
    }
    into.push(TimedRow { values, period })?;
    Ok(())
}

// The same of each of some rows.
fn put_group<'a>(
    alloc: Global,
    columns: &[Column],
    tests: &[&Cond],
    choice: &TimedRow<'a>,
    rows: &[TimedRow<'a>],
    into: &mut Vec<TimedRow<'a>>,
) -> Result<(), NoMemory>
    requires choice { IsValidRow (map shown choice.now.values.items) }
    requires rows { AllValid (entries_of rows.now) }
    ensures borrowed { (which : BorrowedValues) → (before : List OneColumn) → (own : List OneColumn)
        → RowsBorrow which (before ++ own) into.old.items
        → RowBorrows which before choice.now.values.items → RowsBorrow which own rows.now
        → OnOk result (RowsBorrow which (before ++ own) into.new.items) }
    ensures rows { OnOk result (entries_of into.new.items ≡ entries_of into.old.items
        ++ flat_map (paired (passing columns.now (borrowed_tests tests.now)) (entry_of choice.now))
        (entries_of rows.now)) }
{
    for row in rows {
        put_pair(alloc, columns, tests, choice, row, into)?;
    }
    Ok(())
}

// The same of each row of runs. Of each run only those rows are gone over that the choice's period
// may meet.
fn put_runs<'a>(
    alloc: Global,
    columns: &[Column],
    tests: &[&Cond],
    choice: &TimedRow<'a>,
    runs: &[Run<'a>],
    into: &mut Vec<TimedRow<'a>>,
) -> Result<(), NoMemory>
    requires choice { IsValidRow (map shown choice.now.values.items) }
    requires rows { AllValid (entries_of (rows_of_runs runs.now)) }
    ensures borrowed { (which : BorrowedValues) → (before : List OneColumn) → (own : List OneColumn)
        → RowsBorrow which (before ++ own) into.old.items
        → RowBorrows which before choice.now.values.items
        → RowsBorrow which own (rows_of_runs runs.now)
        → OnOk result (RowsBorrow which (before ++ own) into.new.items) }
    ensures rows { OnOk result (entries_of into.new.items ≡ entries_of into.old.items
        ++ flat_map (paired (passing columns.now (borrowed_tests tests.now)) (entry_of choice.now))
        (entries_of (rows_of_runs runs.now))) }
{
    for run in runs {
        put_group(alloc, columns, tests, choice, run.near(choice.period), into)?;
    }
    Ok(())
}

/// Puts the choice with each row after that agrees with it after the others, in their common
/// moments, where it has any and passes the tests.
pub(crate) fn put_choice<'a>(
    alloc: Global,
    columns: &[Column],
    own: &[usize],
    tests: &[&Cond],
    choice: &TimedRow<'a>,
    groups: &BTreeMap<Key<'a>, Group<'a>>,
    into: &mut Vec<TimedRow<'a>>,
) -> Result<(), NoMemory>
    requires choice { IsValidRow (map shown choice.now.values.items) }
    requires rows { (key : List OneValue) → AllValid
        (entries_of (in_group (tree.get row_cmp groups.now key))) }
    ensures borrowed { (which : BorrowedValues) → (before : List OneColumn)
        → (own_columns : List OneColumn)
        → RowsBorrow which (before ++ own_columns) into.old.items
        → RowBorrows which before choice.now.values.items
        → ((key : List OneValue)
        → RowsBorrow which own_columns (in_group (tree.get row_cmp groups.now key)))
        → OnOk result (RowsBorrow which (before ++ own_columns) into.new.items) }
    ensures rows { OnOk result (entries_of into.new.items ≡ entries_of into.old.items
        ++ flat_map (paired (passing columns.now (borrowed_tests tests.now)) (entry_of choice.now))
        (entries_of (in_group (tree.get row_cmp groups.now
        (values_at own.now (map shown choice.now.values.items)))))) }
{
    let values = values_at(alloc, own, &choice.values)?;
    let key = Key::of(values);
    match groups.get(&key) {
        Some(group) => { put_runs(alloc, columns, tests, choice, group.runs(), into) }
        None => Ok(()),
    }
}
