//! What outputs and a condition answer of choices, and what is answered so far.

ghost use Rattle.std.specs.Prelude.{◌≡◌, ◌++◌, ℕ, true, List, [], map, OnOk, OnErr};
ghost use Rattle.relations_spec.specs.Spans.{covers};
ghost use Rattle.relations_spec.specs.Timed.{held_at, at};
ghost use Rattle.prima_base.specs.Order.{row_cmp, shown};
ghost use Rattle.prima_base.specs.Timed.{entries_of, rows_at};
ghost use Rattle.cond_expr.specs.Trees.{Tree};
ghost use Rattle.cond_expr.specs.Seen.{tree, test};
ghost use Rattle.cond_expr.specs.Rows.{AreValid};
ghost use Rattle.join_exec_spec.specs.BorrowedOutputs.{BorrowedValues, RowBorrows, RowsBorrow};
ghost use Rattle.join_exec_spec.specs.BorrowedOutputs.{StaysBorrowed};
ghost use Rattle.join_exec_spec.specs.BorrowedOutputs.{AllStayBorrowed};
ghost use Rattle.join_exec_spec.specs.Keeping.{IsValidRow, AllValid};
ghost use Rattle.join_exec_spec.specs.Answering.{outputs, answer, answers};

use crate::step::values_meet;
use coalesce::coalesce_in_place;
use cond_expr::{Column, Cond, Expr, eval};
use prima_base::{NoMemory, Period, TimedRow, Val};
use prima_base_rows::TimedRows;
use std::alloc::Global;

// so many answers are kept as they come
const FEW: usize = 65_536;

/// What is answered so far. It is coalesced whenever it has doubled, so that it has not many more
/// rows, and values, than the list of it.
#[derive(Drop)]
pub(crate) struct Answered<'a> {
    pub(crate) rows: TimedRows<'a>,
    // room for the values of an answer while they are made
    row: Vec<Val<'a>>,
    // as many rows are coalesced
    limit: usize,
}

/// Nothing is answered yet.
pub(crate) fn none_yet<'a>(alloc: Global) -> Answered<'a>
    ensures { result.rows.items ≡ [] }
{
    Answered {
        rows: TimedRows::new(alloc),
        row: Vec::new(alloc),
        limit: FEW,
    }
}

// Makes `row` the values of the outputs, in written order.
fn output_row<'a>(
    alloc: Global,
    row: &mut Vec<Val<'a>>,
    outs: &[Expr],
    columns: &[Column],
    values: &[Val<'a>],
) -> Result<(), NoMemory>
    requires { AreValid values.now }
    ensures borrowed { (which : BorrowedValues) → RowBorrows which columns.now values.now
        → OnOk result (StaysBorrowed which (map tree outs.now) row.new.items) }
    ensures values { OnOk result (map shown row.new.items
        ≡ outputs columns.now (map tree outs.now) (map shown values.now)) }
{
    row.clear();
    for out in outs {
        row.push(eval(alloc, out, columns, values)?)?;
    }
    Ok(())
}

/// Puts the values of the outputs after the other rows, where the choice of these values, which
/// holds in the period, meets the condition. `row` has room for them while they are made. On
/// `NoMemory` the rows are as before.
pub fn put_choice_answer<'a>(
    alloc: Global,
    rows: &mut TimedRows<'a>,
    row: &mut Vec<Val<'a>>,
    outs: &[Expr],
    cond: &Cond,
    columns: &[Column],
    values: &[Val<'a>],
    period: Period,
) -> Result<(), NoMemory>
    requires { IsValidRow (map shown values.now) }
    ensures borrowed { (which : BorrowedValues)
        → AllStayBorrowed which (map tree outs.now) rows.old.items
        → RowBorrows which columns.now values.now
        → OnOk result (AllStayBorrowed which (map tree outs.now) rows.new.items) }
    ensures rows { OnOk result (entries_of rows.new.items ≡ entries_of rows.old.items
        ++ answer columns.now (map tree outs.now) (test cond.now)
        (record { item = map shown values.now; period = period })) }
    ensures unchanged { OnErr result (rows.new.items ≡ rows.old.items) }
{
    if !values_meet(alloc, cond, columns, values)? {
        return Ok(());
    }
    output_row(alloc, row, outs, columns, values)?;
    rows.push_from(row, period)?;
    Ok(())
}

// Puts the values of the outputs of each choice that meets the condition, in its period, after the
// other rows.
fn put_choice_answers<'a>(
    alloc: Global,
    rows: &mut TimedRows<'a>,
    row: &mut Vec<Val<'a>>,
    outs: &[Expr],
    cond: &Cond,
    columns: &[Column],
    choices: &[TimedRow<'a>],
) -> Result<(), NoMemory>
    requires { AllValid (entries_of choices.now) }
    ensures borrowed { (which : BorrowedValues)
        → AllStayBorrowed which (map tree outs.now) rows.old.items
        → RowsBorrow which columns.now choices.now
        → OnOk result (AllStayBorrowed which (map tree outs.now) rows.new.items) }
    ensures rows { OnOk result (entries_of rows.new.items ≡ entries_of rows.old.items
        ++ answers columns.now (map tree outs.now) (test cond.now) (entries_of choices.now)) }
{
    for choice in choices {
        put_choice_answer(
            alloc,
            rows,
            row,
            outs,
            cond,
            columns,
            &choice.values,
            choice.period,
        )?;
    }
    Ok(())
}

// Coalesces the rows, where they are as many as the limit, and packs them. Answered is at how many
// they are coalesced next.
fn settled_count(alloc: Global, rows: &mut TimedRows<'_>, slice: Period, limit: usize) -> usize
    ensures borrowed { (which : BorrowedValues) → (outs : List Tree)
        → AllStayBorrowed which outs rows.old.items
        → AllStayBorrowed which outs rows.new.items }
    ensures same { (m : ℕ) → covers slice m ≡ true
        → rows_at rows.new.items m ≡ rows_at rows.old.items m }
    ensures inside { (m : ℕ) → rows_at rows.old.items m ≡ [] → rows_at rows.new.items m ≡ [] }
{
    if rows.len() < limit {
        return limit;
    }
    coalesce_in_place(rows, slice);
    rows.pack(alloc);
    rows.len().saturating_mul(2).max(FEW)
}

/// Takes what the choices that meet the condition answer into what is answered, at each moment of
/// the slice.
pub(crate) fn answer_made<'a>(
    alloc: Global,
    outs: &[Expr],
    cond: &Cond,
    columns: &[Column],
    slice: Period,
    choices: &[TimedRow<'a>],
    answered: &mut Answered<'a>,
) -> Result<(), NoMemory>
    requires { AllValid (entries_of choices.now) }
    ensures borrowed { (which : BorrowedValues)
        → AllStayBorrowed which (map tree outs.now) answered.old.rows.items
        → RowsBorrow which columns.now choices.now
        → OnOk result (AllStayBorrowed which (map tree outs.now) answered.new.rows.items) }
    ensures rows { (m : ℕ) → covers slice m ≡ true
        → OnOk result (rows_at answered.new.rows.items m
        ≡ at row_cmp (entries_of answered.old.rows.items
        ++ answers columns.now (map tree outs.now) (test cond.now) (entries_of choices.now)) m) }
    ensures inside { (m : ℕ) → held_at (entries_of choices.now) m ≡ []
        → rows_at answered.old.rows.items m ≡ []
        → OnOk result (rows_at answered.new.rows.items m ≡ []) }
{
    put_choice_answers(
        alloc,
        &mut answered.rows,
        &mut answered.row,
        outs,
        cond,
        columns,
        choices,
    )?;
    answered.limit = settled_count(alloc, &mut answered.rows, slice, answered.limit);
    Ok(())
}
