//! An operator, checked against a schema, and the schema after it, kind by kind.

ghost use Rattle.std.specs.Prelude.{◌≡◌, None, IfOk, IfSome};
ghost use Rattle.smo_ops_types.specs.Operators.{operator_of, evolution_of};
ghost use Rattle.smo_ops_spec.specs.Accepts.{operator_refusal};
ghost use Rattle.smo_ops_spec.specs.After.{op_fault, schema_after, IsAfter, HasFewNodes, IsValid};
ghost use Rattle.smo_ops_spec.specs.Evolutions.{schema_after_each, evolution_fault, IsAfterEach};

mod add_column;
mod column_precondition;
mod copy_table;
mod create_table;
mod decompose_table;
mod drop_column;
mod drop_table;
mod join_table;
mod merge_table;
mod nop;
mod partition_table;
mod precondition;
mod rename_column;
mod rename_table;
mod tree_precondition;

use crate::operator::add_column::after_add_column;
use crate::operator::copy_table::after_copy;
use crate::operator::create_table::create;
use crate::operator::decompose_table::after_decompose;
use crate::operator::drop_column::after_drop_column;
use crate::operator::drop_table::after_drop;
use crate::operator::join_table::after_join;
use crate::operator::merge_table::after_merge;
use crate::operator::nop::after_nop;
use crate::operator::partition_table::after_partition;
use crate::operator::rename_column::after_rename_column;
use crate::operator::rename_table::after_rename;
use prima_base::{NoMemory, OpRefusal, Refusal};
use schema_catalog::Schema;
use smo_ops_types::{Op, OpFault};
use std::alloc::Global;

// The schema after an operator, kind by kind.
fn next_schema(alloc: Global, schema: &Schema, op: &Op) -> Result<Schema, OpFault>
    requires { HasFewNodes (operator_of op.now) }
    ensures { IsAfter schema.now (operator_of op.now) result }
{
    match op {
        Op::Nop => after_nop(schema),
        Op::CreateTable { table, columns } => create(alloc, schema, table, columns),
        Op::DropTable { table } => after_drop(schema, table),
        Op::RenameTable { table, into } => after_rename(alloc, schema, table, into),
        Op::CopyTable { table, into } => after_copy(alloc, schema, table, into),
        Op::MergeTable { left, right, into } => after_merge(alloc, schema, left, right, into),
        Op::PartitionTable {
            table,
            yes,
            cond,
            no,
        } => after_partition(alloc, schema, table, yes, cond, no),
        Op::DecomposeTable {
            table,
            left,
            left_columns,
            right,
            right_columns,
        } => {
            after_decompose(
                alloc,
                schema,
                table,
                left,
                left_columns,
                right,
                right_columns,
            )
        }
        Op::JoinTable {
            left,
            right,
            into,
            cond,
        } => after_join(alloc, schema, left, right, into, cond),
        Op::AddColumn {
            column,
            expr,
            table,
        } => after_add_column(alloc, schema, column, expr, table),
        Op::DropColumn { column, table } => after_drop_column(alloc, schema, column, table),
        Op::RenameColumn {
            column,
            table,
            into,
        } => after_rename_column(alloc, schema, column, table, into),
    }
}

/// The schema after an operator, or the first of its preconditions that fails; the old schema
/// stays. They are tested in this order, each with the number of its refusal:
///
/// - NOP has none.
/// - CREATE TABLE: no table has the name (26); there is a column (30); no column is named twice
///   (27); there are at most 32 columns (38); after it there are at most 64 tables (38).
/// - DROP TABLE: the table is there (22).
/// - RENAME TABLE: the table is there (22); the new name is another (31), and free (26).
/// - COPY TABLE: the table is there (22); the new name is free (26); after it there are at most 64
///   tables (38).
/// - MERGE TABLE: the first table is there, then the second (22); they are not one (31); the new
///   name is free (26); the two have the same columns and types (28).
/// - PARTITION TABLE: the table is there (22); the new names are not one (31); the first is free,
///   then the second (26); each reference of the condition is to a column of the table (23); the
///   condition is well-typed (25); after it there are at most 64 tables (38).
/// - DECOMPOSE TABLE: the table is there (22); the new names are not one (31); the first is free,
///   then the second (26); the columns that are named are the table's, those of the first part
///   before those of the second (23); no column is named twice for the first part, then for the
///   second (27); neither part is empty, the two have a common column, and together they have all
///   columns (29); after it there are at most 64 tables (38).
/// - JOIN TABLE: the first table is there, then the second (22); they are not one (31); the new
///   name is free (26); common columns have equal types (28); the made table has at most 32 columns
///   (38); each reference of the condition is to a column of it (23); the condition is well-typed
///   (25).
/// - ADD COLUMN: the table is there (22), without the column (27); each reference of the expression
///   is to a column of the table (23); the expression is well-typed (25); with the new column there
///   are at most 32 (38).
/// - DROP COLUMN: the table is there (22), with the column (23) and another one (30).
/// - RENAME COLUMN: the table is there (22), with the column (23) and without one of the new name
///   (27).
///
/// A name is free where no table has it, or where the operator consumes the table that has it.
/// `WrongType` has the number of the first node whose parts have types that it does not take, in
/// pre-order from 0; so each tree of the operator has fewer than 2^32 nodes. Where memory runs out
/// the answer is `NoMemory`.
pub fn after(alloc: Global, schema: &Schema, op: &Op) -> Result<Schema, OpFault>
    requires { HasFewNodes (operator_of op.now) }
    ensures after { IsAfter schema.now (operator_of op.now) result }
    ensures evolution { IsAfterEach schema.now (evolution_of op.now) result }
    ensures valid { IsValid schema.now → IfOk result (λ s. IsValid s) }
{
    next_schema(alloc, schema, op)
}

/// The schema when an operator has been tried: the one that `after` answers, or an equal one where
/// the operator is refused, which changes nothing. The one error is `NoMemory`, where memory runs
/// out.
pub fn schema_after(alloc: Global, schema: &Schema, op: &Op) -> Result<Schema, NoMemory>
    requires { HasFewNodes (operator_of op.now) }
    ensures after { op_fault schema.now (operator_of op.now) ≡ None
        → IfOk result (λ next. next ≡ schema_after schema.now (operator_of op.now)) }
    ensures evolution { evolution_fault schema.now (evolution_of op.now) ≡ None
        → IfOk result (λ next. next ≡ schema_after_each schema.now (evolution_of op.now)) }
    ensures same { IfSome (op_fault schema.now (operator_of op.now))
        (λ _. IfOk result (λ next. next ≡ schema.now)) }
    ensures valid { IsValid schema.now → IfOk result (λ next. IsValid next) }
{
    match after(alloc, schema, op) {
        Ok(next) => Ok(next),
        Err(OpFault::Refused(_)) => schema.copy(),
        Err(OpFault::NoMemory) => Err(NoMemory),
    }
}

/// An operator's refusal as that of its statement. It takes no memory.
pub fn operator_refusal(refusal: OpRefusal) -> Refusal
    ensures { result ≡ operator_refusal refusal }
{
    match refusal {
        OpRefusal::Exists(table) => Refusal::Exists(table),
        OpRefusal::NoTable(table) => Refusal::NoTable(table),
        OpRefusal::ColumnExists(table, column) => Refusal::ColumnExists(table, column),
        OpRefusal::NoColumn(_, column) => Refusal::NoColumn(column),
        OpRefusal::ColumnsDiffer(left, right) => Refusal::ColumnsDiffer(left, right),
        OpRefusal::BadCover(table) => Refusal::BadCover(table),
        OpRefusal::LastColumn(table) => Refusal::LastColumn(table),
        OpRefusal::SameTable(table) => Refusal::SameTable(table),
        OpRefusal::WrongType(place) => Refusal::WrongType(place),
        OpRefusal::TooMany(what, limit) => Refusal::TooMany(what, limit),
    }
}
