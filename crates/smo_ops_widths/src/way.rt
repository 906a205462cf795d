//! Widths on the way from version to version: over an operator, over operators one after the other,
//! and back over one.

ghost use Rattle.std.specs.Prelude.{◌≡◌, ℕ, IfOk, OnOk};
ghost use Rattle.schema_catalog.specs.Tables.{Tables};
ghost use Rattle.smo_ops_types.specs.Operators.{operator_of, operators_of};
ghost use Rattle.smo_ops_types.specs.Operators.{evolution_of, evolutions_of};
ghost use Rattle.smo_ops_spec.specs.After.{HaveFewNodes};
ghost use Rattle.smo_ops_spec.specs.Losses.{Loss};
ghost use Rattle.smo_ops_spec.specs.Evolutions.{AllOperatorsAccepted};
ghost use Rattle.smo_ops_versions_spec.specs.Steps.{carrying_each, taken};
ghost use Rattle.smo_ops_versions_spec.specs.Ways.{back_over, step_back};
ghost use Rattle.smo_ops_widths.specs.Widths.{Widths, widths_over, widths_stepped, no_width};
ghost use Rattle.smo_ops_spec.specs.OperatorTable.{line, made_names};
ghost use Rattle.smo_ops_widths.specs.Shown.{Show};
ghost use Rattle.smo_ops_widths.specs.AtHand.{all_widths};

use crate::operator;
use crate::widths::TableWidths;
use prima_base::NoMemory;
use schema_catalog::Schema;
use smo_ops_operators::{consumed, made, schema_after};
use smo_ops_types::Op;
use std::alloc::Global;

/// Over an operator that stands after these tables.
pub(crate) fn carry(
    alloc: Global,
    before: &Schema,
    op: &Op,
    widths: &mut TableWidths,
) -> Result<(), NoMemory>
    ensures { OnOk result ((shown : Widths) → Show (all_widths widths.old) shown
        → Show (all_widths widths.new) (widths_over before.now (operator_of op.now) shown)) }
{
    match op {
        Op::Nop => Ok(()),
        Op::CreateTable { table, .. } => operator::create_table(alloc, widths, table),
        Op::DropTable { table } => {
            operator::drop_table(widths, table);
            Ok(())
        }
        Op::RenameTable { table, into } => operator::rename_table(widths, table, into),
        Op::CopyTable { table, into } => operator::copy_table(alloc, widths, table, into),
        Op::MergeTable { left, right, into } => {
            operator::merge_table(alloc, widths, left, right, into)
        }
        Op::PartitionTable {
            table,
            yes,
            cond,
            no,
        } => operator::partition_table(alloc, widths, table, yes, cond, no),
        Op::DecomposeTable {
            table,
            left,
            right,
            ..
        } => operator::decompose_table(alloc, widths, table, left, right),
        Op::JoinTable {
            left,
            right,
            into,
            cond,
        } => operator::join_table(alloc, before, widths, left, right, into, cond),
        Op::AddColumn {
            column,
            expr,
            table,
        } => operator::add_column(widths, column, expr, table),
        Op::DropColumn { .. } => Ok(()),
        Op::RenameColumn {
            column,
            table,
            into,
        } => operator::rename_column(widths, column, table, into),
    }
}

// Over operators one after the other, of which the first stands after these tables.
fn carry_each(
    alloc: Global,
    before: &Schema,
    ops: &[Op],
    widths: &mut TableWidths,
) -> Result<(), NoMemory>
    requires accepted { AllOperatorsAccepted before.now (operators_of ops.now) }
    requires few { HaveFewNodes (operators_of ops.now) }
    ensures { OnOk result ((shown : Widths) → Show (all_widths widths.old) shown
        → Show (all_widths widths.new)
        (taken widths_stepped (carrying_each before.now (operators_of ops.now)) shown)) }
{
    match ops {
        [] => Ok(()),
        [op] => carry(alloc, before, op, widths),
        [op, rest @ ..] => {
            carry(alloc, before, op, widths)?;
            let next = schema_after(alloc, before, op)?;
            carry_each(alloc, &next, rest, widths)
        }
    }
}

// Back over an operator where nothing leads back.
fn undo(op: &Op, widths: &mut TableWidths)
    ensures { (before : Tables) → (shown : Widths) → Show (all_widths widths.old) shown
        → Show (all_widths widths.new) (no_width (line before (operator_of op.now)).consumed
        (no_width (made_names (line before (operator_of op.now)).made) shown)) }
{
    widths.forget_all(made(op));
    widths.forget_all(consumed(op));
}

// Back over an operator where no inverse is named: over what is derived, and where there is no way
// back what it made and consumed has no width.
fn go_back_unnamed(alloc: Global, op: &Op, widths: &mut TableWidths) -> Result<(), NoMemory>
    ensures { OnOk result ((before : Tables) → (loss : Loss) → (shown : Widths)
        → Show (all_widths widths.old) shown → Show (all_widths widths.new)
        (widths_stepped (step_back loss before (operator_of op.now)) shown)) }
{
    match op {
        Op::Nop => Ok(()),
        Op::AddColumn { .. } => Ok(()),
        Op::CreateTable { table, .. } => {
            operator::drop_table(widths, table);
            Ok(())
        }
        Op::RenameTable { table, into } => operator::rename_table(widths, into, table),
        Op::CopyTable { into, .. } => {
            operator::drop_table(widths, into);
            Ok(())
        }
        Op::PartitionTable { table, yes, no, .. } => {
            operator::merge_table(alloc, widths, yes, no, table)
        }
        Op::DropColumn { column, table } => operator::fill_column(widths, column, table),
        Op::RenameColumn {
            column,
            table,
            into,
        } => operator::rename_column(widths, into, table, column),
        Op::DropTable { .. }
        | Op::MergeTable { .. }
        | Op::DecomposeTable { .. }
        | Op::JoinTable { .. } => {
            undo(op, widths);
            Ok(())
        }
    }
}

/// Back over an operator by its inverse or with none; the operators of the inverse stand after the
/// tables `after`.
pub(crate) fn go_back(
    alloc: Global,
    op: &Op,
    after: &Schema,
    inverse: &[Op],
    widths: &mut TableWidths,
) -> Result<(), NoMemory>
    requires accepted { AllOperatorsAccepted after.now (operators_of inverse.now) }
    requires few { HaveFewNodes (operators_of inverse.now) }
    ensures { OnOk result ((before : Tables) → (k : ℕ) → (shown : Widths)
        → Show (all_widths widths.old) shown → Show (all_widths widths.new) (taken widths_stepped
        (back_over k before (evolution_of op.now) after.now (evolutions_of inverse.now)) shown)) }
{
    match inverse {
        [] => go_back_unnamed(alloc, op, widths),
        [_, ..] => carry_each(alloc, after, inverse, widths),
    }
}
