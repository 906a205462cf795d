//! The operator by which one goes back over an operator for which no inverse is named.

ghost use Rattle.std.specs.Prelude.{◌≡◌, IfOk};
ghost use Rattle.std.specs.Option.{option_map};
ghost use Rattle.cond_expr.specs.Trees.{constant};
ghost use Rattle.smo_ops_types.specs.Operators.{operator_of, drop_table, rename_table, merge_table};
ghost use Rattle.smo_ops_types.specs.Operators.{drop_column, rename_column, add_column};
ghost use Rattle.smo_ops_spec.specs.WaysBack.{blank, derived};

use cond_expr::Expr;
use prima_base::{ColType, Name, NoMemory, Txt, Value};
use schema_catalog::Schema;
use smo_ops_columns::type_in;
use smo_ops_types::Op;
use std::alloc::Global;

fn drop_table(table: &Name) -> Result<Op, NoMemory>
    ensures { IfOk result (λ o. operator_of o ≡ drop_table table.now) }
{
    Ok(Op::DropTable {
        table: table.copy()?,
    })
}

fn rename_table(table: &Name, into: &Name) -> Result<Op, NoMemory>
    ensures { IfOk result (λ o. operator_of o ≡ rename_table table.now into.now) }
{
    Ok(Op::RenameTable {
        table: table.copy()?,
        into: into.copy()?,
    })
}

fn merge_table(left: &Name, right: &Name, into: &Name) -> Result<Op, NoMemory>
    ensures { IfOk result (λ o. operator_of o ≡ merge_table left.now right.now into.now) }
{
    Ok(Op::MergeTable {
        left: left.copy()?,
        right: right.copy()?,
        into: into.copy()?,
    })
}

fn drop_column(column: &Name, table: &Name) -> Result<Op, NoMemory>
    ensures { IfOk result (λ o. operator_of o ≡ drop_column column.now table.now) }
{
    Ok(Op::DropColumn {
        column: column.copy()?,
        table: table.copy()?,
    })
}

fn rename_column(column: &Name, table: &Name, into: &Name) -> Result<Op, NoMemory>
    ensures { IfOk result (λ o. operator_of o ≡ rename_column column.now table.now into.now) }
{
    Ok(Op::RenameColumn {
        column: column.copy()?,
        table: table.copy()?,
        into: into.copy()?,
    })
}

// What a filled column has in each row.
fn blank(alloc: Global, kind: ColType) -> Result<Value, NoMemory>
    ensures { IfOk result (λ v. v ≡ blank kind) }
{
    match kind {
        ColType::Int => Ok(Value::Int(0)),
        ColType::Text => Ok(Value::Text(Txt::of(alloc, &[])?)),
    }
}

fn filling(alloc: Global, column: &Name, kind: ColType, table: &Name) -> Result<Op, NoMemory>
    ensures { IfOk result (λ o. operator_of o
        ≡ add_column column.now (constant (blank kind)) table.now) }
{
    Ok(Op::AddColumn {
        column: column.copy()?,
        expr: Expr::Const(blank(alloc, kind)?),
        table: table.copy()?,
    })
}

/// The operator by which one goes back over an accepted operator that names no inverse: for seven
/// kinds the derived inverse, and for DROP COLUMN the filling, an ADD COLUMN of 0 or of the empty
/// text. `None` exactly for DROP TABLE, MERGE TABLE, DECOMPOSE TABLE and JOIN TABLE, over which
/// nothing leads back. `before` is the schema before the operator, which it is accepted on.
pub fn derived(alloc: Global, op: &Op, before: &Schema) -> Result<Option<Op>, NoMemory>
    ensures { IfOk result (λ o. option_map operator_of o ≡ derived before.now (operator_of op.now)) }
{
    match op {
        Op::Nop => Ok(Some(Op::Nop)),
        Op::CreateTable { table, .. } => Ok(Some(drop_table(table)?)),
        Op::RenameTable { table, into } => Ok(Some(rename_table(into, table)?)),
        Op::CopyTable { into, .. } => Ok(Some(drop_table(into)?)),
        Op::PartitionTable { table, yes, no, .. } => Ok(Some(merge_table(yes, no, table)?)),
        Op::AddColumn { column, table, .. } => Ok(Some(drop_column(column, table)?)),
        Op::DropColumn { column, table } => {
            let kind = type_in(before.columns_of(table), column).unwrap_or(ColType::Int);
            Ok(Some(filling(alloc, column, kind, table)?))
        }
        Op::RenameColumn {
            column,
            table,
            into,
        } => Ok(Some(rename_column(into, table, column)?)),
        Op::DropTable { .. }
        | Op::MergeTable { .. }
        | Op::DecomposeTable { .. }
        | Op::JoinTable { .. } => Ok(None),
    }
}
