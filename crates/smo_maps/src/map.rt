ghost use Rattle.std.specs.Prelude.{◌≡◌, [], None, IfOk};
ghost use Rattle.smo_ops_types.specs.Operators.{operator_of};
ghost use Rattle.smo_ops_spec.specs.After.{op_fault};
ghost use Rattle.smo_maps.specs.Carrying.{IsCarried};

use crate::add_column::with_value;
use crate::decompose_table::with_names;
use crate::drop_column::without_column;
use crate::join_table::joined;
use crate::merge_table::united;
use crate::partition_table::parted;
use crate::rename_column::under_another_name;
use crate::whole_table::copied;
use prima_base::{NoMemory, Row};
use schema_catalog::Schema;
use smo_ops::Op;
use std::alloc::Global;

/// The relations of the tables that an operator makes, in the order of the table of operators. That
/// of a table that is not made is empty.
#[derive(Drop)]
pub struct Carried {
    pub first: Vec<Row>,
    pub second: Vec<Row>,
}

// Where no table is made.
fn none(alloc: Global) -> Carried
    ensures first { result.first.items ≡ [] }
    ensures second { result.second.items ≡ [] }
{
    Carried {
        first: Vec::new(alloc),
        second: Vec::new(alloc),
    }
}

// Where one table is made.
fn one(alloc: Global, rows: Vec<Row>) -> Carried
    ensures first { result.first.items ≡ rows.items }
    ensures second { result.second.items ≡ [] }
{
    Carried {
        first: rows,
        second: Vec::new(alloc),
    }
}

/// The relations of the tables that the operator makes, from those of the one or two tables that it
/// makes them of (`made_of`), in the order in which it names them; where it makes them of one, or
/// of none as DROP TABLE, what else is given is not looked at. The operator is one that is not
/// refused over the schema `before`. Where the lists are relations of those tables' columns, the
/// answers are relations of the made tables' columns (by the law
/// `migrated_database_is_of_the_next_schema`). The one error is `NoMemory`, where memory runs out.
/// (PRISM 2008.)
pub fn carry(
    alloc: Global,
    op: &Op,
    before: &Schema,
    first: &[Row],
    second: &[Row],
) -> Result<Carried, NoMemory>
    requires accepted { op_fault before.now (operator_of op.now) ≡ None }
    ensures { IfOk result (λ c. IsCarried before.now (operator_of op.now) first.now second.now
        c.first.items c.second.items) }
{
    match op {
        Op::Nop => Ok(none(alloc)),
        Op::CreateTable { .. } => Ok(none(alloc)),
        Op::DropTable { .. } => Ok(none(alloc)),
        Op::RenameTable { .. } => Ok(one(alloc, copied(alloc, first)?)),
        Op::CopyTable { .. } => Ok(one(alloc, copied(alloc, first)?)),
        Op::MergeTable { .. } => Ok(one(alloc, united(alloc, first, second)?)),
        Op::PartitionTable { table, cond, .. } => {
            parted(alloc, before.columns_of(table), cond, first)
        }
        Op::DecomposeTable {
            table,
            left_columns,
            right_columns,
            ..
        } => {
            let columns = before.columns_of(table);
            Ok(Carried {
                first: with_names(alloc, columns, left_columns, first)?,
                second: with_names(alloc, columns, right_columns, first)?,
            })
        }
        Op::JoinTable {
            left,
            right,
            cond,
            ..
        } => {
            let columns = before.columns_of(left);
            let others = before.columns_of(right);
            Ok(one(alloc, joined(alloc, columns, others, cond, first, second)?))
        }
        Op::AddColumn {
            column,
            expr,
            table,
        } => {
            let columns = before.columns_of(table);
            Ok(one(alloc, with_value(alloc, columns, column, expr, first)?))
        }
        Op::DropColumn { column, table } => {
            let columns = before.columns_of(table);
            Ok(one(alloc, without_column(alloc, columns, column, first)?))
        }
        Op::RenameColumn {
            column,
            table,
            into,
        } => {
            let columns = before.columns_of(table);
            Ok(one(
                alloc,
                under_another_name(alloc, columns, column, into, first)?,
            ))
        }
    }
}
