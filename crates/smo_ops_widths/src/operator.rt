//! Widths over an operator, a function for each kind. A table that is renamed or altered keeps its
//! width, which is moved and changed where it stands: nothing of it is copied.

ghost use Rattle.std.specs.Prelude.{ℕ, List, Option, IfOk, OnOk};
ghost use Rattle.std.specs.Option.{option_map};
ghost use Rattle.std.specs.FinMap.{get};
ghost use Rattle.prima_base.specs.Columns.{Column};
ghost use Rattle.prima_base.specs.declared.value.Value.{Value};
ghost use Rattle.schema_catalog.specs.Tables.{Tables, columns_of};
ghost use Rattle.cond_expr.specs.Trees.{constant};
ghost use Rattle.cond_expr.specs.Seen.{tree, test};
ghost use Rattle.smo_ops_types.specs.Operators.{create_table, drop_table, rename_table};
ghost use Rattle.smo_ops_types.specs.Operators.{copy_table, merge_table, partition_table};
ghost use Rattle.smo_ops_types.specs.Operators.{decompose_table, join_table, add_column};
ghost use Rattle.smo_ops_types.specs.Operators.{rename_column};
ghost use Rattle.smo_ops_widths.specs.Widths.{Widths, Width, widths_over, merged_width};
ghost use Rattle.smo_ops_widths.specs.Widths.{part_width, joined_width, with_size, sized_as, sized};
ghost use Rattle.smo_ops_widths.specs.Widths.{of_both};
ghost use Rattle.smo_ops_widths.specs.Counted.{MayBeAlike};
ghost use Rattle.smo_ops_widths.specs.Shown.{width_of, Show};
ghost use Rattle.smo_ops_widths.specs.AtHand.{all_widths};

use crate::width::{TableWidth, added, copy, created, joined, merged, part, renamed, resized};
use crate::widths::TableWidths;
use cond_expr::{Cond, Expr};
use prima_base::{Name, NoMemory};
use schema_catalog::Schema;
use std::alloc::Global;

fn copy_of(
    alloc: Global,
    widths: &TableWidths,
    table: &Name,
) -> Result<Option<TableWidth>, NoMemory>
    ensures { IfOk result (λ w. (shown : Widths) → Show (all_widths widths.now) shown
        → MayBeAlike (option_map width_of w) (get shown table.now)) }
{
    match widths.get(table) {
        None => Ok(None),
        Some(width) => Ok(Some(copy(alloc, width)?)),
    }
}

fn merged_of(
    alloc: Global,
    widths: &TableWidths,
    left: &Name,
    right: &Name,
) -> Result<Option<TableWidth>, NoMemory>
    ensures { IfOk result (λ w. (shown : Widths) → Show (all_widths widths.now) shown
        → MayBeAlike (option_map width_of w)
        (of_both merged_width (get shown left.now) (get shown right.now))) }
{
    match (widths.get(left), widths.get(right)) {
        (Some(left), Some(right)) => Ok(Some(merged(alloc, left, right)?)),
        _ => Ok(None),
    }
}

fn part_of(
    alloc: Global,
    widths: &TableWidths,
    table: &Name,
    more: u64,
    cond: &Cond,
) -> Result<Option<TableWidth>, NoMemory>
    ensures { IfOk result (λ w. (shown : Widths) → Show (all_widths widths.now) shown
        → MayBeAlike (option_map width_of w)
        (option_map (part_width more (test cond.now)) (get shown table.now))) }
{
    match widths.get(table) {
        None => Ok(None),
        Some(width) => Ok(Some(part(alloc, more, cond, width)?)),
    }
}

fn joined_of(
    alloc: Global,
    before: &Schema,
    widths: &TableWidths,
    left: &Name,
    right: &Name,
    cond: &Cond,
) -> Result<Option<TableWidth>, NoMemory>
    ensures { IfOk result (λ w. (shown : Widths) → Show (all_widths widths.now) shown
        → MayBeAlike (option_map width_of w)
        (of_both (joined_width (columns_of before.now left.now) (columns_of before.now right.now)
        (test cond.now)) (get shown left.now) (get shown right.now))) }
{
    let columns = (before.columns_of(left), before.columns_of(right));
    match (widths.get(left), widths.get(right)) {
        (Some(left), Some(right)) => Ok(Some(joined(alloc, columns, cond, left, right)?)),
        _ => Ok(None),
    }
}

fn added_of(
    width: Option<TableWidth>,
    column: &Name,
    expr: &Expr,
) -> Result<Option<TableWidth>, NoMemory>
    ensures { IfOk result (λ w. (o : Option Width) → MayBeAlike (option_map width_of width) o
        → MayBeAlike (option_map width_of w) (option_map (λ (a : Width).
        with_size (sized_as column.now (sized a.size (tree expr.now)) a.size) a) o)) }
{
    match width {
        None => Ok(None),
        Some(width) => Ok(Some(added(column, expr, width)?)),
    }
}

fn filled_of(width: Option<TableWidth>, column: &Name) -> Result<Option<TableWidth>, NoMemory>
    ensures { IfOk result (λ w. (o : Option Width) → MayBeAlike (option_map width_of width) o
        → MayBeAlike (option_map width_of w) (option_map (λ (a : Width).
        with_size (sized_as column.now 1 a.size) a) o)) }
{
    match width {
        None => Ok(None),
        Some(width) => Ok(Some(resized(column, 1, width)?)),
    }
}

fn renamed_of(
    width: Option<TableWidth>,
    column: &Name,
    into: &Name,
) -> Result<Option<TableWidth>, NoMemory>
    ensures { IfOk result (λ w. (o : Option Width) → MayBeAlike (option_map width_of width) o
        → MayBeAlike (option_map width_of w) (option_map (λ (a : Width).
        with_size (sized_as into.now (a.size column.now) a.size) a) o)) }
{
    match width {
        None => Ok(None),
        Some(width) => Ok(Some(renamed(column, into, width)?)),
    }
}

/// Over CREATE TABLE.
pub(crate) fn create_table(
    alloc: Global,
    widths: &mut TableWidths,
    table: &Name,
) -> Result<(), NoMemory>
    ensures { OnOk result ((before : Tables) → (columns : List Column) → (shown : Widths)
        → Show (all_widths widths.old) shown → Show (all_widths widths.new)
        (widths_over before (create_table table.now columns) shown)) }
{
    widths.put(table, Some(created(alloc)))
}

/// Over DROP TABLE.
pub(crate) fn drop_table(widths: &mut TableWidths, table: &Name)
    ensures { (before : Tables) → (shown : Widths) → Show (all_widths widths.old) shown
        → Show (all_widths widths.new) (widths_over before (drop_table table.now) shown) }
{
    widths.forget(table)
}

/// Over RENAME TABLE.
pub(crate) fn rename_table(
    widths: &mut TableWidths,
    table: &Name,
    into: &Name,
) -> Result<(), NoMemory>
    ensures { OnOk result ((before : Tables) → (shown : Widths) → Show (all_widths widths.old) shown
        → Show (all_widths widths.new)
        (widths_over before (rename_table table.now into.now) shown)) }
{
    let width = widths.take(table);
    widths.put(into, width)
}

/// Over COPY TABLE.
pub(crate) fn copy_table(
    alloc: Global,
    widths: &mut TableWidths,
    table: &Name,
    into: &Name,
) -> Result<(), NoMemory>
    ensures { OnOk result ((before : Tables) → (shown : Widths) → Show (all_widths widths.old) shown
        → Show (all_widths widths.new) (widths_over before (copy_table table.now into.now) shown)) }
{
    let width = copy_of(alloc, widths, table)?;
    widths.put(into, width)
}

/// Over MERGE TABLE.
pub(crate) fn merge_table(
    alloc: Global,
    widths: &mut TableWidths,
    left: &Name,
    right: &Name,
    into: &Name,
) -> Result<(), NoMemory>
    ensures { OnOk result ((before : Tables) → (shown : Widths) → Show (all_widths widths.old) shown
        → Show (all_widths widths.new)
        (widths_over before (merge_table left.now right.now into.now) shown)) }
{
    let width = merged_of(alloc, widths, left, right)?;
    widths.forget(left);
    widths.forget(right);
    widths.put(into, width)
}

/// Over PARTITION TABLE.
pub(crate) fn partition_table(
    alloc: Global,
    widths: &mut TableWidths,
    table: &Name,
    yes: &Name,
    cond: &Cond,
    no: &Name,
) -> Result<(), NoMemory>
    ensures { OnOk result ((before : Tables) → (shown : Widths) → Show (all_widths widths.old) shown
        → Show (all_widths widths.new)
        (widths_over before (partition_table table.now yes.now (test cond.now) no.now) shown)) }
{
    let first = part_of(alloc, widths, table, 1, cond)?;
    let second = part_of(alloc, widths, table, 2, cond)?;
    widths.forget(table);
    widths.put(yes, first)?;
    widths.put(no, second)
}

/// Over DECOMPOSE TABLE.
pub(crate) fn decompose_table(
    alloc: Global,
    widths: &mut TableWidths,
    table: &Name,
    left: &Name,
    right: &Name,
) -> Result<(), NoMemory>
    ensures { OnOk result ((before : Tables) → (xs : List (List ℕ)) → (ys : List (List ℕ))
        → (shown : Widths) → Show (all_widths widths.old) shown → Show (all_widths widths.new)
        (widths_over before (decompose_table table.now left.now xs right.now ys) shown)) }
{
    let first = copy_of(alloc, widths, table)?;
    let second = widths.take(table);
    widths.put(left, first)?;
    widths.put(right, second)
}

/// Over JOIN TABLE, which stands after these tables.
pub(crate) fn join_table(
    alloc: Global,
    before: &Schema,
    widths: &mut TableWidths,
    left: &Name,
    right: &Name,
    into: &Name,
    cond: &Cond,
) -> Result<(), NoMemory>
    ensures { OnOk result ((shown : Widths) → Show (all_widths widths.old) shown
        → Show (all_widths widths.new) (widths_over before.now
        (join_table left.now right.now into.now (test cond.now)) shown)) }
{
    let width = joined_of(alloc, before, widths, left, right, cond)?;
    widths.forget(left);
    widths.forget(right);
    widths.put(into, width)
}

/// Over ADD COLUMN.
pub(crate) fn add_column(
    widths: &mut TableWidths,
    column: &Name,
    expr: &Expr,
    table: &Name,
) -> Result<(), NoMemory>
    ensures { OnOk result ((before : Tables) → (shown : Widths) → Show (all_widths widths.old) shown
        → Show (all_widths widths.new)
        (widths_over before (add_column column.now (tree expr.now) table.now) shown)) }
{
    let width = added_of(widths.take(table), column, expr)?;
    widths.put(table, width)
}

/// Over the ADD COLUMN of a constant.
pub(crate) fn fill_column(
    widths: &mut TableWidths,
    column: &Name,
    table: &Name,
) -> Result<(), NoMemory>
    ensures { OnOk result ((before : Tables) → (value : Value) → (shown : Widths)
        → Show (all_widths widths.old) shown → Show (all_widths widths.new)
        (widths_over before (add_column column.now (constant value) table.now) shown)) }
{
    let width = filled_of(widths.take(table), column)?;
    widths.put(table, width)
}

/// Over RENAME COLUMN.
pub(crate) fn rename_column(
    widths: &mut TableWidths,
    column: &Name,
    table: &Name,
    into: &Name,
) -> Result<(), NoMemory>
    ensures { OnOk result ((before : Tables) → (shown : Widths) → Show (all_widths widths.old) shown
        → Show (all_widths widths.new)
        (widths_over before (rename_column column.now table.now into.now) shown)) }
{
    let width = renamed_of(widths.take(table), column, into)?;
    widths.put(table, width)
}
