//! Filters: what a row has to pass before it is looked at whole.
//!
//! Each part of a condition at its top level that compares just one column with a constant is a
//! test of one value. A row that fails one cannot meet the condition, and is passed over by that
//! value alone.

ghost use Rattle.std.specs.Prelude.{◌≡◌, ◌<◌, true, List, [], IfOk, length, slice_index_or};
ghost use Rattle.prima_base.specs.declared.value.Value.{Value as OneValue};
ghost use Rattle.prima_base.specs.Columns.{Column as OwnColumn, AreColumns, IsRow};
ghost use Rattle.cond_expr.specs.AtomColumns.{columns_at};
ghost use Rattle.cond_expr.specs.Seen.{test};
ghost use Rattle.cond_expr.specs.Trees.{Test};
ghost use Rattle.smo_ops_spec.specs.OneRow.{meets};
ghost use Rattle.version_groups_candidates.specs.Filters.{ColumnTest as PlainTest, lets, passes};
ghost use Rattle.version_groups_candidates.specs.Filters.{IsFilter};

use cond_expr::{CmpOp, Column, Cond, decide, pinned};
use history_store::BorrowedRows;
use prima_base::{NoMemory, Steps, Value};
use std::alloc::Global;
use std::marker::Model;
use std::sync::ledger::Ledger;

/// How many rows are looked at whole at once: a filter of their condition would cost more than it
/// saves.
const FEW_READ_ROWS: usize = 16;

/// A comparison of one column with a constant.
#[derive(Drop)]
pub struct ColumnTest<'c> {
    column: usize,
    op: CmpOp,
    constant: &'c Value,
}

impl<'c> Model for ColumnTest<'c> {
    ghost use Rattle.version_groups_candidates.specs.Filters.{ColumnTest as PlainTest};

    ghost Value = { PlainTest };

    ghost view = { λ t. record { column = t.column; op = t.op; constant = t.constant.now } };
}

impl<'c> ColumnTest<'c> {
    // Whether the row at this place passes the test.
    fn lets<L: Ledger>(&self, rows: &mut BorrowedRows<'_>, at: usize, steps: &mut Steps<L>) -> bool
        requires { at < length rows.old }
        ensures same { rows.new ≡ rows.old }
        ensures lets { result ≡ lets self.now (slice_index_or rows.old at []) }
    {
        match rows.value(at, self.column, steps) {
            Some(value) => decide(self.op, value.compare(&self.constant.lend())),
            None => true,
        }
    }
}

// Puts the test of the column at this place after the others, where a top-level part of the
// condition compares the column in this way.
fn add_test<'c>(
    cond: &'c Cond,
    columns: &[Column],
    column: usize,
    op: CmpOp,
    filter: &mut Vec<ColumnTest<'c>>,
) -> Result<(), NoMemory>
    requires within { column < length columns.now }
    requires filter { IsFilter columns.now (test cond.now) filter.old.items }
    ensures { IsFilter columns.now (test cond.now) filter.new.items }
{
    if let Some(constant) = pinned(cond, op, &columns[column]) {
        filter.push(ColumnTest {
            column,
            op,
            constant,
        })?;
    }
    Ok(())
}

// The same for each way to compare.
fn add_tests<'c>(
    cond: &'c Cond,
    columns: &[Column],
    column: usize,
    filter: &mut Vec<ColumnTest<'c>>,
) -> Result<(), NoMemory>
    requires within { column < length columns.now }
    requires filter { IsFilter columns.now (test cond.now) filter.old.items }
    ensures { IsFilter columns.now (test cond.now) filter.new.items }
{
    add_test(cond, columns, column, CmpOp::Eq, filter)?;
    add_test(cond, columns, column, CmpOp::Ne, filter)?;
    add_test(cond, columns, column, CmpOp::Lt, filter)?;
    add_test(cond, columns, column, CmpOp::Le, filter)?;
    add_test(cond, columns, column, CmpOp::Gt, filter)?;
    add_test(cond, columns, column, CmpOp::Ge, filter)
}

/// A filter of the condition for so many rows: of few rows none is asked. The one error is
/// `NoMemory`, where memory runs out.
pub fn filter_for<'c>(
    alloc: Global,
    cond: &'c Cond,
    columns: &[Column],
    rows: usize,
) -> Result<Vec<ColumnTest<'c>>, NoMemory>
    ensures { IfOk result (λ filter. IsFilter columns.now (test cond.now) filter.items) }
{
    let mut filter = Vec::new(alloc);
    if rows <= FEW_READ_ROWS {
        return Ok(filter);
    }
    for column in 0..columns.len() {
        add_tests(cond, columns, column, &mut filter)?;
    }
    Ok(filter)
}

/// Whether the row at this place passes all the tests. Each value that is looked at is one step. It
/// takes no memory.
pub fn passes<L: Ledger>(
    filter: &[ColumnTest<'_>],
    rows: &mut BorrowedRows<'_>,
    at: usize,
    steps: &mut Steps<L>,
) -> bool
    requires { at < length rows.old }
    ensures same { rows.new ≡ rows.old }
    ensures passes { result ≡ passes filter.now (slice_index_or rows.old at []) }
{
    for one in filter {
        if !one.lets(rows, at, steps) {
            return false;
        }
    }
    true
}

/// A row that meets a condition passes its filters.
pub fn hits_pass_filters()
    ensures { (its : List OwnColumn) (t : Test) (filter : List PlainTest) (row : List OneValue)
        → AreColumns its → IsRow its row → meets its t row ≡ true
        → IsFilter (columns_at 0 its) t filter → passes filter row ≡ true }
{}
