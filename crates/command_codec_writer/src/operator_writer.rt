//! Writing operators.

ghost use Rattle.std.specs.Prelude.{◌≡◌, ◌<◌, ◌^◌, ◌++◌, ◌∷◌, [], length, OnOk};
ghost use Rattle.std.specs.List.{flat_map, AllByRecursion};
ghost use Rattle.prima_base.specs.Bytes.{IsName};
ghost use Rattle.cond_expr.specs.Seen.{tree, test};
ghost use Rattle.smo_ops_types.specs.Operators.{operator_of, evolutions_of, create_table};
ghost use Rattle.smo_ops_types.specs.Operators.{partition_table, decompose_table, join_table};
ghost use Rattle.smo_ops_types.specs.Operators.{add_column};
ghost use Rattle.command_codec_spec.specs.Encoding.{type_tag, name_bytes, column_bytes, list_bytes};
ghost use Rattle.command_codec_spec.specs.Encoding.{tree_bytes, test_bytes, operator_bytes};
ghost use Rattle.command_codec_spec.specs.Encoding.{evolution_bytes};
ghost use Rattle.command_codec_spec.specs.Valid.{TreeFits, TestFits, TreeNamed, TestNamed};
ghost use Rattle.command_codec_spec.specs.Valid.{IsWritableOperator, OperatorNamed};
ghost use Rattle.command_codec_spec.specs.Valid.{IsWritableEvolution, EvolutionNamed};

use crate::part::{put, put_u8, put_u32, write_name};
use crate::tree_writer::{write_cond, write_expr};
use cond_expr::{Cond, Expr};
use prima_base::{ColType, Name, NoMemory};
use smo_ops_types::Op;

// A tag, and a name after it.
pub(crate) fn tagged_name(out: &mut Vec<u8>, tag: u8, name: &Name) -> Result<(), NoMemory>
    ensures ok { OnOk result (out.new.items ≡ out.old.items ++ (tag ∷ name_bytes name.now)) }
    ensures named { OnOk result (IsName name.now) }
{
    put(out, &[tag])?;
    write_name(out, name)?;
    Ok(())
}

// A tag, and two names after it.
fn tagged_names(out: &mut Vec<u8>, tag: u8, first: &Name, second: &Name) -> Result<(), NoMemory>
    ensures ok { OnOk result (out.new.items ≡ out.old.items
        ++ (tag ∷ name_bytes first.now ++ name_bytes second.now)) }
    ensures first_named { OnOk result (IsName first.now) }
    ensures second_named { OnOk result (IsName second.now) }
{
    tagged_name(out, tag, first)?;
    write_name(out, second)?;
    Ok(())
}

// A tag, and three names after it.
fn tagged_three(
    out: &mut Vec<u8>,
    tag: u8,
    first: &Name,
    second: &Name,
    third: &Name,
) -> Result<(), NoMemory>
    ensures ok { OnOk result (out.new.items ≡ out.old.items
        ++ (tag ∷ name_bytes first.now ++ name_bytes second.now ++ name_bytes third.now)) }
    ensures first_named { OnOk result (IsName first.now) }
    ensures second_named { OnOk result (IsName second.now) }
    ensures third_named { OnOk result (IsName third.now) }
{
    tagged_names(out, tag, first, second)?;
    write_name(out, third)?;
    Ok(())
}

// The tag of a column's type.
fn type_of(kind: ColType) -> u8
    ensures { result ≡ type_tag kind }
{
    match kind {
        ColType::Int => 0,
        ColType::Text => 1,
    }
}

// A column's name and its type.
fn write_column(out: &mut Vec<u8>, column: &(Name, ColType)) -> Result<(), NoMemory>
    ensures ok { OnOk result (out.new.items ≡ out.old.items ++ column_bytes column.now) }
    ensures named { OnOk result (IsName column.now.0) }
{
    write_name(out, &column.0)?;
    put(out, &[type_of(column.1)])?;
    Ok(())
}

// Columns, one after the other.
fn write_each_column(out: &mut Vec<u8>, columns: &[(Name, ColType)]) -> Result<(), NoMemory>
    ensures ok { OnOk result (out.new.items ≡ out.old.items ++ flat_map column_bytes columns.now) }
    ensures named { OnOk result (AllByRecursion (λ c. IsName c.0) columns.now) }
{
    for column in columns {
        write_column(out, column)?;
    }
    Ok(())
}

// Columns, with their count before them.
fn write_columns(out: &mut Vec<u8>, columns: &[(Name, ColType)]) -> Result<(), NoMemory>
    requires { length columns.now < 2 ^ 8 }
    ensures ok { OnOk result (out.new.items ≡ out.old.items
        ++ list_bytes 1 column_bytes columns.now) }
    ensures named { OnOk result (AllByRecursion (λ c. IsName c.0) columns.now) }
{
    put_u8(out, columns.len() as u8)?;
    write_each_column(out, columns)?;
    Ok(())
}

// Names, one after the other.
fn write_each_name(out: &mut Vec<u8>, names: &[Name]) -> Result<(), NoMemory>
    ensures ok { OnOk result (out.new.items ≡ out.old.items ++ flat_map name_bytes names.now) }
    ensures named { OnOk result (AllByRecursion IsName names.now) }
{
    for name in names {
        write_name(out, name)?;
    }
    Ok(())
}

// Names, with their count before them.
fn write_names(out: &mut Vec<u8>, names: &[Name]) -> Result<(), NoMemory>
    requires { length names.now < 2 ^ 8 }
    ensures ok { OnOk result (out.new.items ≡ out.old.items ++ list_bytes 1 name_bytes names.now) }
    ensures named { OnOk result (AllByRecursion IsName names.now) }
{
    put_u8(out, names.len() as u8)?;
    write_each_name(out, names)?;
    Ok(())
}

// A table's name, and the names of its columns.
fn write_part(out: &mut Vec<u8>, table: &Name, names: &[Name]) -> Result<(), NoMemory>
    requires { length names.now < 2 ^ 8 }
    ensures ok { OnOk result (out.new.items ≡ out.old.items
        ++ (name_bytes table.now ++ list_bytes 1 name_bytes names.now)) }
    ensures table_named { OnOk result (IsName table.now) }
    ensures columns_named { OnOk result (AllByRecursion IsName names.now) }
{
    write_name(out, table)?;
    write_names(out, names)?;
    Ok(())
}

// A condition, and a name after it.
fn write_cond_and_name(out: &mut Vec<u8>, cond: &Cond, name: &Name) -> Result<(), NoMemory>
    requires { TestFits (test cond.now) }
    ensures ok { OnOk result (out.new.items ≡ out.old.items
        ++ (test_bytes (test cond.now) ++ name_bytes name.now)) }
    ensures cond_named { OnOk result (TestNamed (test cond.now)) }
    ensures name_named { OnOk result (IsName name.now) }
{
    write_cond(out, cond)?;
    write_name(out, name)?;
    Ok(())
}

// CREATE TABLE.
fn write_created(
    out: &mut Vec<u8>,
    table: &Name,
    columns: &[(Name, ColType)],
) -> Result<(), NoMemory>
    requires { length columns.now < 2 ^ 8 }
    ensures ok { OnOk result (out.new.items ≡ out.old.items
        ++ operator_bytes (create_table table.now columns.now)) }
    ensures named { OnOk result (OperatorNamed (create_table table.now columns.now)) }
{
    tagged_name(out, 1, table)?;
    write_columns(out, columns)?;
    Ok(())
}

// PARTITION TABLE.
fn write_partitioned(
    out: &mut Vec<u8>,
    table: &Name,
    yes: &Name,
    cond: &Cond,
    no: &Name,
) -> Result<(), NoMemory>
    requires { TestFits (test cond.now) }
    ensures ok { OnOk result (out.new.items ≡ out.old.items
        ++ operator_bytes (partition_table table.now yes.now (test cond.now) no.now)) }
    ensures named { OnOk result (OperatorNamed
        (partition_table table.now yes.now (test cond.now) no.now)) }
{
    tagged_names(out, 6, table, yes)?;
    write_cond_and_name(out, cond, no)?;
    Ok(())
}

// DECOMPOSE TABLE.
fn write_decomposed(
    out: &mut Vec<u8>,
    table: &Name,
    left: &Name,
    left_columns: &[Name],
    right: &Name,
    right_columns: &[Name],
) -> Result<(), NoMemory>
    requires left { length left_columns.now < 2 ^ 8 }
    requires right { length right_columns.now < 2 ^ 8 }
    ensures ok { OnOk result (out.new.items ≡ out.old.items
        ++ operator_bytes (decompose_table table.now left.now left_columns.now right.now
        right_columns.now)) }
    ensures named { OnOk result (OperatorNamed
        (decompose_table table.now left.now left_columns.now right.now right_columns.now)) }
{
    tagged_name(out, 7, table)?;
    write_part(out, left, left_columns)?;
    write_part(out, right, right_columns)?;
    Ok(())
}

// JOIN TABLE.
fn write_joined(
    out: &mut Vec<u8>,
    left: &Name,
    right: &Name,
    into: &Name,
    cond: &Cond,
) -> Result<(), NoMemory>
    requires { TestFits (test cond.now) }
    ensures ok { OnOk result (out.new.items ≡ out.old.items
        ++ operator_bytes (join_table left.now right.now into.now (test cond.now))) }
    ensures named { OnOk result (OperatorNamed
        (join_table left.now right.now into.now (test cond.now))) }
{
    tagged_three(out, 8, left, right, into)?;
    write_cond(out, cond)?;
    Ok(())
}

// ADD COLUMN.
fn write_added(out: &mut Vec<u8>, column: &Name, expr: &Expr, table: &Name) -> Result<(), NoMemory>
    requires { TreeFits (tree expr.now) }
    ensures ok { OnOk result (out.new.items ≡ out.old.items
        ++ operator_bytes (add_column column.now (tree expr.now) table.now)) }
    ensures named { OnOk result (OperatorNamed (add_column column.now (tree expr.now) table.now)) }
{
    tagged_names(out, 9, table, column)?;
    write_expr(out, expr)?;
    Ok(())
}

/// Writes the spelling of an operator that can be written after what is there. The one error is
/// `NoMemory`, where memory runs out; a part of it may then stand there.
pub fn write_op(out: &mut Vec<u8>, op: &Op) -> Result<(), NoMemory>
    requires { IsWritableOperator (operator_of op.now) }
    ensures ok { OnOk result (out.new.items ≡ out.old.items
        ++ operator_bytes (operator_of op.now)) }
    ensures named { OnOk result (OperatorNamed (operator_of op.now)) }
{
    match op {
        Op::Nop => put(out, &[0]),
        Op::CreateTable { table, columns } => write_created(out, table, columns),
        Op::DropTable { table } => tagged_name(out, 2, table),
        Op::RenameTable { table, into } => tagged_names(out, 3, table, into),
        Op::CopyTable { table, into } => tagged_names(out, 4, table, into),
        Op::MergeTable { left, right, into } => tagged_three(out, 5, left, right, into),
        Op::PartitionTable {
            table,
            yes,
            cond,
            no,
        } => write_partitioned(out, table, yes, cond, no),
        Op::DecomposeTable {
            table,
            left,
            left_columns,
            right,
            right_columns,
        } => write_decomposed(out, table, left, left_columns, right, right_columns),
        Op::JoinTable {
            left,
            right,
            into,
            cond,
        } => write_joined(out, left, right, into, cond),
        Op::AddColumn {
            column,
            expr,
            table,
        } => write_added(out, column, expr, table),
        Op::DropColumn { column, table } => tagged_names(out, 10, table, column),
        Op::RenameColumn {
            column,
            table,
            into,
        } => tagged_three(out, 11, table, column, into),
    }
}

// Operators, one after the other.
fn write_each_op(out: &mut Vec<u8>, ops: &[Op]) -> Result<(), NoMemory>
    requires { AllByRecursion IsWritableEvolution (evolutions_of ops.now) }
    ensures ok { OnOk result (out.new.items ≡ out.old.items
        ++ flat_map evolution_bytes (evolutions_of ops.now)) }
    ensures named { OnOk result (AllByRecursion EvolutionNamed (evolutions_of ops.now)) }
{
    for op in ops {
        write_op(out, op)?;
    }
    Ok(())
}

/// Writes operators that can be written after what is there, with their count before them. The one
/// error is `NoMemory`, where memory runs out; a part of them may then stand there.
pub fn write_ops(out: &mut Vec<u8>, ops: &[Op]) -> Result<(), NoMemory>
    requires counted { length ops.now < 2 ^ 32 }
    requires writable { AllByRecursion IsWritableEvolution (evolutions_of ops.now) }
    ensures ok { OnOk result (out.new.items ≡ out.old.items
        ++ list_bytes 4 evolution_bytes (evolutions_of ops.now)) }
    ensures named { OnOk result (AllByRecursion EvolutionNamed (evolutions_of ops.now)) }
{
    put_u32(out, ops.len() as u32)?;
    write_each_op(out, ops)?;
    Ok(())
}
