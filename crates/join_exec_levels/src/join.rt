//! Joins of several lists of rows with periods.

ghost use Rattle.std.specs.Prelude.{◌≡◌, ◌<◌, ◌^◌, ℕ, true, false, [], ◌∷◌, map, IfOk};
ghost use Rattle.std.specs.List.{filter, sum_by};
ghost use Rattle.relations_spec.specs.Choices.{choices};
ghost use Rattle.relations_spec.specs.Sets.{set_of};
ghost use Rattle.relations_spec.specs.Spans.{covers};
ghost use Rattle.prima_base.specs.Order.{row_cmp};
ghost use Rattle.prima_base.specs.Timed.{entries_of, rows_at};
ghost use Rattle.cond_expr.specs.Seen.{tree, test};
ghost use Rattle.join_exec_spec.specs.Answering.{one_row, outputs};
ghost use Rattle.join_exec_spec.specs.Keeping.{meets};
ghost use Rattle.join_exec_spec.specs.BorrowedOutputs.{BorrowedValues, RowsBorrow, AllStayBorrowed};
ghost use Rattle.join_exec_levels.specs.declared.source.Source.{Source as OneSource};
ghost use Rattle.join_exec_levels.specs.Sources.{SourcesBorrow, relations_of};

use crate::answer::{Answered, none_yet};
use crate::level::{answer_levels, levels_of};
use crate::part::gather_parts;
use crate::source::Source;
use cond_expr::{Column, Cond, Expr};
use prima_base::{NoMemory, Period, TimedRow};
use prima_base_rows::TimedRows;
use std::alloc::Global;
use std::collections::VecDeque;

// The choice of no row, over the whole slice.
fn no_rows_yet<'a>(alloc: Global, slice: Period) -> Result<Vec<TimedRow<'a>>, NoMemory>
    ensures borrowed { (which : BorrowedValues)
        → IfOk result (λ rows. RowsBorrow which [] rows.items) }
    ensures rows { IfOk result (λ rows. entries_of rows.items ≡ record { item = []; period = slice }
        ∷ []) }
{
    let mut rows = Vec::new(alloc);
    rows.push(TimedRow {
        values: Vec::new(alloc),
        period: slice,
    })?;
    Ok(rows)
}

/// What outputs answer of the choices of one row of each list that hold together and meet the
/// condition: at each moment of the slice just these rows, and at no other moment any. A row may
/// stand several times.
pub fn join_rows<'a>(
    alloc: Global,
    outs: &[Expr],
    cond: &Cond,
    columns: &[Column],
    sources: VecDeque<Source<'a>>,
    slice: Period,
) -> Result<TimedRows<'a>, NoMemory>
    requires { sum_by (λ (s : OneSource). s.width) sources.items < 2 ^ 64 }
    ensures borrowed { (which : BorrowedValues)
        → SourcesBorrow which columns.now sources.entry.items
        → IfOk result (λ rows. AllStayBorrowed which (map tree outs.now) rows.items) }
    ensures inside { (m : ℕ) → covers slice m ≡ false
        → IfOk result (λ rows. rows_at rows.items m ≡ []) }
    ensures rows { (m : ℕ) → covers slice m ≡ true → IfOk result (λ rows. rows_at rows.items m
        ≡ set_of row_cmp (map (outputs columns.now (map tree outs.now))
        (filter (meets columns.now (test cond.now))
        (map one_row (choices (relations_of sources.entry.items m)))))) }
{
    let mut parts = Vec::new(alloc);
    gather_parts(&mut parts, cond)?;
    let levels = levels_of(alloc, columns, &parts, sources)?;
    let first = no_rows_yet(alloc, slice)?;
    let mut answered = none_yet(alloc);
    answer_levels(
        alloc,
        outs,
        cond,
        columns,
        slice,
        &levels,
        &first,
        &mut answered,
    )?;
    let Answered { rows, .. } = answered;
    Ok(rows)
}
