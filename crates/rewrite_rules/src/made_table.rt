ghost use Rattle.std.specs.Prelude.{◌≡◌, IfOk};
ghost use Rattle.smo_ops_types.specs.Operators.{operator_of};
ghost use Rattle.piece_ir.specs.Shown.{all_views_of};
ghost use Rattle.piece_ir_spec.specs.OperatorViews.{operator_views};

use crate::{
    add_column, copy_table, create_table, decompose_table, drop_column, join_table, merge_table,
    partition_table, rename_column, rename_table,
};
use piece_ir::TableViews;
use prima_base::NoMemory;
use schema_catalog::Schema;
use smo_ops_types::Op;
use std::alloc::Global;

/// The tables that an operator makes, with their views, operator by operator.
pub(crate) fn made_tables(
    alloc: Global,
    op: &Op,
    before: &Schema,
) -> Result<Vec<TableViews>, NoMemory>
    ensures { IfOk result (λ v. all_views_of v.items
        ≡ operator_views before.now (operator_of op.now)) }
{
    match op {
        Op::Nop => Ok(Vec::new(alloc)),
        Op::CreateTable { table, .. } => create_table::views(alloc, table),
        Op::DropTable { .. } => Ok(Vec::new(alloc)),
        Op::RenameTable { table, into } => rename_table::views(alloc, table, into),
        Op::CopyTable { table, into } => copy_table::views(alloc, table, into),
        Op::MergeTable { left, right, into } => merge_table::views(alloc, left, right, into),
        Op::PartitionTable {
            table,
            yes,
            cond,
            no,
        } => partition_table::views(alloc, table, yes, cond, no),
        Op::DecomposeTable {
            table,
            left,
            right,
            ..
        } => decompose_table::views(alloc, table, left, right),
        Op::JoinTable {
            left,
            right,
            into,
            cond,
        } => join_table::views(alloc, before, left, right, into, cond),
        Op::AddColumn {
            column,
            expr,
            table,
        } => add_column::views(alloc, column, expr, table),
        Op::DropColumn { table, .. } => drop_column::views(alloc, table),
        Op::RenameColumn {
            column,
            table,
            into,
        } => rename_column::views(alloc, column, table, into),
    }
}
