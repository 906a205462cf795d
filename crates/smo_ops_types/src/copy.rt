//! Copies of operators, changes and bodies of commands, and of what they are made of.

ghost use Rattle.std.specs.Prelude.{◌≡◌, IfOk};
ghost use Rattle.smo_ops_types.specs.Operators.{operator_of, operators_of, create_table};
ghost use Rattle.smo_ops_types.specs.Operators.{rename_table};
ghost use Rattle.smo_ops_types.specs.Operators.{copy_table, merge_table, partition_table};
ghost use Rattle.smo_ops_types.specs.Operators.{decompose_table, join_table, add_column};
ghost use Rattle.smo_ops_types.specs.Operators.{drop_column};
ghost use Rattle.smo_ops_types.specs.Operators.{rename_column};
ghost use Rattle.smo_ops_types.specs.Changes.{change_of, changes_of, set_of_expr, sets_of};
ghost use Rattle.smo_ops_types.specs.Commands.{body_of};
ghost use Rattle.cond_expr.specs.Seen.{tree, test};

use crate::{Body, Change, Op};
use cond_expr::{Cond, Expr};
use prima_base::{ColType, Name, NoMemory, Value, copy_columns};
use std::alloc::Global;

fn copy_names(alloc: Global, names: &[Name]) -> Result<Vec<Name>, NoMemory>
    ensures { IfOk result (λ v. v.items ≡ names.now) }
{
    let mut copied = Vec::with_capacity(alloc, names.len())?;
    for name in names {
        copied.push(name.copy()?)?;
    }
    Ok(copied)
}

fn copy_cells(alloc: Global, cells: &[(Name, Value)]) -> Result<Vec<(Name, Value)>, NoMemory>
    ensures { IfOk result (λ v. v.items ≡ cells.now) }
{
    let mut copied = Vec::with_capacity(alloc, cells.len())?;
    for (name, value) in cells {
        copied.push((name.copy()?, value.copy()?))?;
    }
    Ok(copied)
}

fn copy_set(alloc: Global, set: &(Name, Expr)) -> Result<(Name, Expr), NoMemory>
    ensures { IfOk result (λ s. set_of_expr s ≡ set_of_expr set.now) }
{
    Ok((set.0.copy()?, set.1.copy(alloc)?))
}

/// Equal pairs of a column and what it gets or shows, in their order. The one error is `NoMemory`,
/// where memory runs out.
pub fn copy_sets(alloc: Global, sets: &[(Name, Expr)]) -> Result<Vec<(Name, Expr)>, NoMemory>
    ensures { IfOk result (λ v. sets_of v.items ≡ sets_of sets.now) }
{
    let mut copied = Vec::with_capacity(alloc, sets.len())?;
    for set in sets {
        copied.push(copy_set(alloc, set)?)?;
    }
    Ok(copied)
}

fn copy_ops(alloc: Global, ops: &[Op]) -> Result<Vec<Op>, NoMemory>
    ensures { IfOk result (λ v. operators_of v.items ≡ operators_of ops.now) }
{
    let mut copied = Vec::with_capacity(alloc, ops.len())?;
    for op in ops {
        copied.push(op.copy(alloc)?)?;
    }
    Ok(copied)
}

fn copy_changes(alloc: Global, changes: &[Change]) -> Result<Vec<Change>, NoMemory>
    ensures { IfOk result (λ v. changes_of v.items ≡ changes_of changes.now) }
{
    let mut copied = Vec::with_capacity(alloc, changes.len())?;
    for change in changes {
        copied.push(change.copy(alloc)?)?;
    }
    Ok(copied)
}

fn create_table(alloc: Global, table: &Name, columns: &[(Name, ColType)]) -> Result<Op, NoMemory>
    ensures { IfOk result (λ o. operator_of o ≡ create_table table.now columns.now) }
{
    Ok(Op::CreateTable {
        table: table.copy()?,
        columns: copy_columns(alloc, columns)?,
    })
}

fn rename_table(table: &Name, into: &Name) -> Result<Op, NoMemory>
    ensures { IfOk result (λ o. operator_of o ≡ rename_table table.now into.now) }
{
    Ok(Op::RenameTable {
        table: table.copy()?,
        into: into.copy()?,
    })
}

fn copy_table(table: &Name, into: &Name) -> Result<Op, NoMemory>
    ensures { IfOk result (λ o. operator_of o ≡ copy_table table.now into.now) }
{
    Ok(Op::CopyTable {
        table: table.copy()?,
        into: into.copy()?,
    })
}

fn merge_table(left: &Name, right: &Name, into: &Name) -> Result<Op, NoMemory>
    ensures { IfOk result (λ o. operator_of o ≡ merge_table left.now right.now into.now) }
{
    Ok(Op::MergeTable {
        left: left.copy()?,
        right: right.copy()?,
        into: into.copy()?,
    })
}

fn partition_table(
    alloc: Global,
    table: &Name,
    yes: &Name,
    cond: &Cond,
    no: &Name,
) -> Result<Op, NoMemory>
    ensures { IfOk result (λ o. operator_of o
        ≡ partition_table table.now yes.now (test cond.now) no.now) }
{
    Ok(Op::PartitionTable {
        table: table.copy()?,
        yes: yes.copy()?,
        no: no.copy()?,
        cond: cond.copy(alloc)?,
    })
}

fn decompose_table(
    alloc: Global,
    table: &Name,
    left: &Name,
    left_columns: &[Name],
    right: &Name,
    right_columns: &[Name],
) -> Result<Op, NoMemory>
    ensures { IfOk result (λ o. operator_of o
        ≡ decompose_table table.now left.now left_columns.now right.now right_columns.now) }
{
    Ok(Op::DecomposeTable {
        table: table.copy()?,
        left: left.copy()?,
        left_columns: copy_names(alloc, left_columns)?,
        right: right.copy()?,
        right_columns: copy_names(alloc, right_columns)?,
    })
}

fn join_table(
    alloc: Global,
    left: &Name,
    right: &Name,
    into: &Name,
    cond: &Cond,
) -> Result<Op, NoMemory>
    ensures { IfOk result (λ o. operator_of o
        ≡ join_table left.now right.now into.now (test cond.now)) }
{
    Ok(Op::JoinTable {
        left: left.copy()?,
        right: right.copy()?,
        into: into.copy()?,
        cond: cond.copy(alloc)?,
    })
}

fn add_column(alloc: Global, column: &Name, expr: &Expr, table: &Name) -> Result<Op, NoMemory>
    ensures { IfOk result (λ o. operator_of o ≡ add_column column.now (tree expr.now) table.now) }
{
    Ok(Op::AddColumn {
        column: column.copy()?,
        table: table.copy()?,
        expr: expr.copy(alloc)?,
    })
}

fn drop_column(column: &Name, table: &Name) -> Result<Op, NoMemory>
    ensures { IfOk result (λ o. operator_of o ≡ drop_column column.now table.now) }
{
    Ok(Op::DropColumn {
        column: column.copy()?,
        table: table.copy()?,
    })
}

fn rename_column(column: &Name, table: &Name, into: &Name) -> Result<Op, NoMemory>
    ensures { IfOk result (λ o. operator_of o ≡ rename_column column.now table.now into.now) }
{
    Ok(Op::RenameColumn {
        column: column.copy()?,
        table: table.copy()?,
        into: into.copy()?,
    })
}

impl Op {
    /// An equal operator. The one error is `NoMemory`, where memory runs out.
    pub fn copy(&self, alloc: Global) -> Result<Op, NoMemory>
        ensures { IfOk result (λ o. operator_of o ≡ operator_of self.now) }
    {
        match self {
            Op::Nop => Ok(Op::Nop),
            Op::CreateTable { table, columns } => create_table(alloc, table, columns),
            Op::DropTable { table } => Ok(Op::DropTable {
                table: table.copy()?,
            }),
            Op::RenameTable { table, into } => rename_table(table, into),
            Op::CopyTable { table, into } => copy_table(table, into),
            Op::MergeTable { left, right, into } => merge_table(left, right, into),
            Op::PartitionTable {
                table,
                yes,
                cond,
                no,
            } => partition_table(alloc, table, yes, cond, no),
            Op::DecomposeTable {
                table,
                left,
                left_columns,
                right,
                right_columns,
            } => decompose_table(alloc, table, left, left_columns, right, right_columns),
            Op::JoinTable {
                left,
                right,
                into,
                cond,
            } => join_table(alloc, left, right, into, cond),
            Op::AddColumn {
                column,
                expr,
                table,
            } => add_column(alloc, column, expr, table),
            Op::DropColumn { column, table } => drop_column(column, table),
            Op::RenameColumn {
                column,
                table,
                into,
            } => rename_column(column, table, into),
        }
    }
}

impl Change {
    /// An equal change. The one error is `NoMemory`, where memory runs out.
    pub fn copy(&self, alloc: Global) -> Result<Change, NoMemory>
        ensures { IfOk result (λ c. change_of c ≡ change_of self.now) }
    {
        match self {
            Change::Insert { table, cells } => Ok(Change::Insert {
                table: table.copy()?,
                cells: copy_cells(alloc, cells)?,
            }),
            Change::Delete { table, cond } => Ok(Change::Delete {
                table: table.copy()?,
                cond: cond.copy(alloc)?,
            }),
            Change::Update { table, sets, cond } => Ok(Change::Update {
                table: table.copy()?,
                sets: copy_sets(alloc, sets)?,
                cond: cond.copy(alloc)?,
            }),
        }
    }
}

impl Body {
    /// An equal body. The one error is `NoMemory`, where memory runs out.
    pub fn copy(&self, alloc: Global) -> Result<Body, NoMemory>
        ensures { IfOk result (λ b. body_of b ≡ body_of self.now) }
    {
        match self {
            Body::Changes(changes) => Ok(Body::Changes(copy_changes(alloc, changes)?)),
            Body::Evolve { op, inverse } => {
                let inverse = copy_ops(alloc, inverse)?;
                Ok(Body::Evolve {
                    op: op.copy(alloc)?,
                    inverse,
                })
            }
        }
    }
}
