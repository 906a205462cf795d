//! What is answered over one atom alone. Its rows are gone over in their order: none is looked up,
//! and where the outputs are the atom's own columns the rows stay where they are.

ghost use Rattle.std.specs.Prelude.{◌≡◌, ◌++◌, ◌∷◌, [], ℕ, true, false, List, map, length, IfOk};
ghost use Rattle.std.specs.Prelude.{OnOk};
ghost use Rattle.std.specs.List.{filter, filter_map};
ghost use Rattle.relations_spec.specs.Spans.{covers};
ghost use Rattle.relations_spec.specs.Timed.{Entry as OneEntry};
ghost use Rattle.prima_base.specs.declared.value.Value.{Value as OneValue};
ghost use Rattle.prima_base.specs.Order.{shown};
ghost use Rattle.prima_base.specs.Timed.{entries_of, rows_at};
ghost use Rattle.cond_expr.specs.Rows.{cells};
ghost use Rattle.cond_expr.specs.declared.expr.Column.{Column as OneColumn};
ghost use Rattle.cond_expr.specs.Seen.{tree, test};
ghost use Rattle.cond_expr.specs.Values.{value};
ghost use Rattle.coalesce.specs.Cutting.{cut_entry};
ghost use Rattle.coalesce.specs.Joining.{HaveValuesOf};
ghost use Rattle.join_exec_spec.specs.Answering.{outputs, answers};
ghost use Rattle.join_exec_spec.specs.Blocks.{answered};
ghost use Rattle.join_exec_spec.specs.Fitting.{Fit};
ghost use Rattle.join_exec_spec.specs.Keeping.{value_at, meets, IsValidRow, AllValid};
ghost use Rattle.join_exec_spec.specs.BorrowedOutputs.{BorrowedValues, RowBorrows, RowsBorrow};
ghost use Rattle.join_exec_spec.specs.BorrowedOutputs.{AllStayBorrowed};
ghost use Rattle.join_exec_engine.specs.InSlice.{in_slice, all_in_slice};
ghost use Rattle.join_exec_engine.specs.Atoms.{block_of};

use crate::atom::Atom;
use crate::own_part::passing;
use coalesce::cut_to_slice;
use cond_expr::{Column, Cond, Expr};
use join_exec_levels::{column_place, put_choice_answer};
use prima_base::{NoMemory, Period, Val, meet};
use prima_base_rows::TimedRows;
use std::alloc::Global;

// Whether the output is what the column at this place holds.
fn is_column_at(columns: &[Column], out: &Expr, place: usize) -> bool
    ensures { result ≡ true → (row : List OneValue)
        → value (cells columns.now row) (tree out.now) ≡ value_at row place }
{
    match column_place(columns, out) {
        Some(found) => found == place,
        None => false,
    }
}

// Whether the outputs are the columns, each once and in their order.
fn are_columns(columns: &[Column], outs: &[Expr]) -> bool
    ensures { result ≡ true → (row : List OneValue) → length row ≡ length columns.now
        → outputs columns.now (map tree outs.now) row ≡ row }
{
    if outs.len() != columns.len() {
        return false;
    }
    for (place, out) in outs.iter().enumerate() {
        if !is_column_at(columns, out, place) {
            return false;
        }
    }
    true
}

// Puts what the row of these values answers in its moments of the slice after the rows.
fn put_in_slice<'a>(
    alloc: Global,
    rows: &mut TimedRows<'a>,
    row: &mut Vec<Val<'a>>,
    outs: &[Expr],
    cond: &Cond,
    columns: &[Column],
    slice: Period,
    values: &[Val<'a>],
    period: Period,
) -> Result<(), NoMemory>
    requires { IsValidRow (map shown values.now) }
    ensures borrowed { (which : BorrowedValues)
        → AllStayBorrowed which (map tree outs.now) rows.old.items
        → RowBorrows which columns.now values.now
        → OnOk result (AllStayBorrowed which (map tree outs.now) rows.new.items) }
    ensures rows { OnOk result (entries_of rows.new.items ≡ entries_of rows.old.items
        ++ answers columns.now (map tree outs.now) (test cond.now)
        (in_slice slice (record { item = map shown values.now; period = period }))) }
{
    match meet(slice, period) {
        None => Ok(()),
        Some(within) => put_choice_answer(alloc, rows, row, outs, cond, columns, values, within),
    }
}

// What the rows answer in their moments of the slice, each row made anew.
fn made_rows<'a>(
    alloc: Global,
    outs: &[Expr],
    cond: &Cond,
    columns: &[Column],
    slice: Period,
    rows: &TimedRows<'a>,
) -> Result<TimedRows<'a>, NoMemory>
    requires { AllValid (entries_of rows.now.items) }
    ensures borrowed { (which : BorrowedValues) → RowsBorrow which columns.now rows.now.items
        → IfOk result (λ v. AllStayBorrowed which (map tree outs.now) v.items) }
    ensures rows { IfOk result (λ v. entries_of v.items
        ≡ answers columns.now (map tree outs.now) (test cond.now)
        (all_in_slice slice (entries_of rows.now.items))) }
{
    let cells = rows.len().saturating_mul(outs.len());
    let mut made = TimedRows::with_capacity(alloc, rows.len(), cells)?;
    let mut row = Vec::new(alloc);
    for i in 0..rows.len() {
        put_in_slice(
            alloc,
            &mut made,
            &mut row,
            outs,
            cond,
            columns,
            slice,
            rows.values(i),
            rows.period(i),
        )?;
    }
    Ok(made)
}

// Whether the condition is TRUE, or AND of nothing, which every row meets. A query that says
// nothing of an item asks its table with the latter.
#[tactic(auto, using(cond_expr::proofs::SeenLaws::test_of_and))]
fn is_always(cond: &Cond) -> bool
    ensures { (columns : List OneColumn) → (row : List OneValue) → result ≡ true
        → meets columns (test cond.now) row ≡ true }
{
    match cond {
        Cond::True => true,
        Cond::And(members) => members.is_empty(),
        Cond::False | Cond::Cmp(_, _, _) | Cond::Or(_) | Cond::Not(_) => false,
    }
}

// The rows that meet the condition, in their moments of the slice, as they are. Where every row
// meets it none is tested.
fn own_rows<'a>(
    alloc: Global,
    cond: &Cond,
    columns: &[Column],
    slice: Period,
    rows: TimedRows<'a>,
) -> Result<TimedRows<'a>, NoMemory>
    requires { AllValid (entries_of rows.items) }
    ensures values { IfOk result (λ v. HaveValuesOf rows.entry.items v.items) }
    ensures rows { IfOk result (λ v. entries_of v.items
        ≡ filter (λ (e : OneEntry (List OneValue)). meets columns.now (test cond.now) e.item)
        (filter_map (cut_entry slice) (entries_of rows.entry.items))) }
{
    let mut rows = rows;
    cut_to_slice(&mut rows, slice);
    if is_always(cond) {
        return Ok(rows);
    }
    passing(alloc, columns, &[cond], rows)
}

// What the rows answer in their moments of the slice. Where the outputs are the columns the rows
// are their own answers.
fn answered_rows<'a>(
    alloc: Global,
    outs: &[Expr],
    cond: &Cond,
    columns: &[Column],
    slice: Period,
    rows: TimedRows<'a>,
) -> Result<TimedRows<'a>, NoMemory>
    requires { Fit (length columns.now) (entries_of rows.items) }
    ensures borrowed { (which : BorrowedValues) → RowsBorrow which columns.now rows.entry.items
        → IfOk result (λ v. AllStayBorrowed which (map tree outs.now) v.items) }
    ensures rows { IfOk result (λ v. entries_of v.items
        ≡ answers columns.now (map tree outs.now) (test cond.now)
        (all_in_slice slice (entries_of rows.entry.items))) }
{
    if are_columns(columns, outs) {
        return own_rows(alloc, cond, columns, slice, rows);
    }
    made_rows(alloc, outs, cond, columns, slice, &rows)
}

/// What outputs answer of the rows of one atom that meet the condition: at each moment of the slice
/// just these rows, and at no other moment any. The rows stay in their order. A row may stand
/// several times.
pub(crate) fn answer_atom<'a>(
    alloc: Global,
    outs: &[Expr],
    cond: &Cond,
    atom: Atom<'a>,
    slice: Period,
) -> Result<TimedRows<'a>, NoMemory>
    ensures borrowed { (which : BorrowedValues)
        → RowsBorrow which atom.entry.columns.items atom.entry.rows.items
        → IfOk result (λ rows. AllStayBorrowed which (map tree outs.now) rows.items) }
    ensures inside { (m : ℕ) → covers slice m ≡ false
        → IfOk result (λ rows. rows_at rows.items m ≡ []) }
    ensures rows { (m : ℕ) → covers slice m ≡ true
        → IfOk result (λ rows. rows_at rows.items m
        ≡ answered (map tree outs.now) (test cond.now) (block_of m atom.entry ∷ [])) }
{
    let Atom {
        number: _,
        columns,
        rows,
    } = atom;
    answered_rows(alloc, outs, cond, &columns, slice, rows)
}
