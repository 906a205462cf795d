//! Printing of operators, as `specs/Texts.antt` has their texts.

ghost use Rattle.std.specs.Prelude.{◌≡◌, ◌++◌, map, OnOk, IfOk};
ghost use Rattle.cond_expr.specs.Seen.{tree, test};
ghost use Rattle.smo_ops_types.specs.Operators.{operator_of, create_table, rename_table};
ghost use Rattle.smo_ops_types.specs.Operators.{copy_table};
ghost use Rattle.smo_ops_types.specs.Operators.{merge_table, partition_table, decompose_table};
ghost use Rattle.smo_ops_types.specs.Operators.{join_table, add_column, drop_column, rename_column};
ghost use Rattle.smo_parse.specs.Texts.{type_text, column_text, listed, more_listed, part_text};
ghost use Rattle.smo_parse.specs.Texts.{operator_text};

use crate::tree_printer::{put, write_cond, write_expr};
use cond_expr::{Cond, Expr};
use prima_base::{ColType, Name, NoMemory};
use smo_ops::Op;
use std::alloc::Global;

// A word, and a name after it.
fn put_name(out: &mut Vec<u8>, word: &[u8], name: &Name) -> Result<(), NoMemory>
    ensures { OnOk result (out.new.items ≡ out.old.items ++ (word.now ++ name.now)) }
{
    put(out, word)?;
    put(out, name.bytes())
}

// A type's word.
fn word_of(kind: ColType) -> &'static [u8]
    ensures { result.now ≡ type_text kind }
{
    match kind {
        ColType::Int => b"INT",
        ColType::Text => b"TEXT",
    }
}

// A column's name and its type.
fn write_column(out: &mut Vec<u8>, name: &Name, kind: ColType) -> Result<(), NoMemory>
    ensures { OnOk result (out.new.items ≡ out.old.items ++ column_text (name.now, kind)) }
{
    put(out, name.bytes())?;
    put(out, b" ")?;
    put(out, word_of(kind))
}

// Columns, each after a comma.
fn write_more_columns(out: &mut Vec<u8>, columns: &[(Name, ColType)]) -> Result<(), NoMemory>
    ensures { OnOk result (out.new.items ≡ out.old.items
        ++ more_listed (map column_text columns.now)) }
{
    for (name, kind) in columns {
        put(out, b", ")?;
        write_column(out, name, *kind)?;
    }
    Ok(())
}

/// Writes columns with commas between them, each its name and its type, after what is there. The
/// one error is `NoMemory`, where memory runs out.
pub fn write_columns(out: &mut Vec<u8>, columns: &[(Name, ColType)]) -> Result<(), NoMemory>
    ensures { OnOk result (out.new.items ≡ out.old.items ++ listed (map column_text columns.now)) }
{
    match columns {
        [] => Ok(()),
        [(name, kind), more @ ..] => {
            write_column(out, name, *kind)?;
            write_more_columns(out, more)
        }
    }
}

// Names, each after a comma.
fn write_more_names(out: &mut Vec<u8>, names: &[Name]) -> Result<(), NoMemory>
    ensures { OnOk result (out.new.items ≡ out.old.items ++ more_listed names.now) }
{
    for name in names {
        put_name(out, b", ", name)?;
    }
    Ok(())
}

/// Writes names with commas between them after what is there. The one error is `NoMemory`, where
/// memory runs out.
pub fn write_names(out: &mut Vec<u8>, names: &[Name]) -> Result<(), NoMemory>
    ensures { OnOk result (out.new.items ≡ out.old.items ++ listed names.now) }
{
    match names {
        [] => Ok(()),
        [first, more @ ..] => {
            put(out, first.bytes())?;
            write_more_names(out, more)
        }
    }
}

// A table's name and, in brackets, its columns.
fn write_table(out: &mut Vec<u8>, table: &Name, columns: &[(Name, ColType)]) -> Result<(), NoMemory>
    ensures { OnOk result (out.new.items ≡ out.old.items
        ++ part_text table.now (map column_text columns.now)) }
{
    put(out, table.bytes())?;
    put(out, b" (")?;
    write_columns(out, columns)?;
    put(out, b")")
}

// A table's name and, in brackets, the names of its columns.
fn write_part(out: &mut Vec<u8>, table: &Name, names: &[Name]) -> Result<(), NoMemory>
    ensures { OnOk result (out.new.items ≡ out.old.items ++ part_text table.now names.now) }
{
    put(out, table.bytes())?;
    put(out, b" (")?;
    write_names(out, names)?;
    put(out, b")")
}

// A word and a name, and another word and name after them.
fn put_names(
    out: &mut Vec<u8>,
    word: &[u8],
    first: &Name,
    between: &[u8],
    second: &Name,
) -> Result<(), NoMemory>
    ensures { OnOk result (out.new.items ≡ out.old.items
        ++ (word.now ++ first.now ++ between.now ++ second.now)) }
{
    put_name(out, word, first)?;
    put_name(out, between, second)
}

#[tactic(auto, unfolding(crate::specs::Texts::operator_text))]
fn write_create_table(
    out: &mut Vec<u8>,
    table: &Name,
    columns: &[(Name, ColType)],
) -> Result<(), NoMemory>
    ensures { OnOk result (out.new.items ≡ out.old.items
        ++ operator_text (create_table table.now columns.now)) }
{
    put(out, b"CREATE TABLE ")?;
    write_table(out, table, columns)
}

#[tactic(auto, unfolding(crate::specs::Texts::operator_text))]
fn write_merge_table(
    out: &mut Vec<u8>,
    left: &Name,
    right: &Name,
    into: &Name,
) -> Result<(), NoMemory>
    ensures { OnOk result (out.new.items ≡ out.old.items
        ++ operator_text (merge_table left.now right.now into.now)) }
{
    put_names(out, b"MERGE TABLE ", left, b", ", right)?;
    put_name(out, b" INTO ", into)
}

#[tactic(auto, unfolding(crate::specs::Texts::operator_text))]
fn write_partition_table(
    out: &mut Vec<u8>,
    table: &Name,
    yes: &Name,
    cond: &Cond,
    no: &Name,
) -> Result<(), NoMemory>
    ensures { OnOk result (out.new.items ≡ out.old.items
        ++ operator_text (partition_table table.now yes.now (test cond.now) no.now)) }
{
    put_names(out, b"PARTITION TABLE ", table, b" INTO ", yes)?;
    put(out, b" WITH ")?;
    write_cond(out, cond, false, false)?;
    put_name(out, b", ", no)
}

#[tactic(auto, unfolding(crate::specs::Texts::operator_text))]
fn write_decompose_table(
    out: &mut Vec<u8>,
    table: &Name,
    left: &Name,
    left_columns: &[Name],
    right: &Name,
    right_columns: &[Name],
) -> Result<(), NoMemory>
    ensures { OnOk result (out.new.items ≡ out.old.items
        ++ operator_text (decompose_table table.now left.now left_columns.now right.now
        right_columns.now)) }
{
    put_name(out, b"DECOMPOSE TABLE ", table)?;
    put(out, b" INTO ")?;
    write_part(out, left, left_columns)?;
    put(out, b", ")?;
    write_part(out, right, right_columns)
}

#[tactic(auto, unfolding(crate::specs::Texts::operator_text))]
fn write_join_table(
    out: &mut Vec<u8>,
    left: &Name,
    right: &Name,
    into: &Name,
    cond: &Cond,
) -> Result<(), NoMemory>
    ensures { OnOk result (out.new.items ≡ out.old.items
        ++ operator_text (join_table left.now right.now into.now (test cond.now))) }
{
    put_names(out, b"JOIN TABLE ", left, b", ", right)?;
    put_name(out, b" INTO ", into)?;
    put(out, b" WHERE ")?;
    write_cond(out, cond, false, false)
}

#[tactic(auto, unfolding(crate::specs::Texts::operator_text))]
fn write_add_column(
    out: &mut Vec<u8>,
    column: &Name,
    expr: &Expr,
    table: &Name,
) -> Result<(), NoMemory>
    ensures { OnOk result (out.new.items ≡ out.old.items
        ++ operator_text (add_column column.now (tree expr.now) table.now)) }
{
    put_name(out, b"ADD COLUMN ", column)?;
    put(out, b" AS ")?;
    write_expr(out, expr, false)?;
    put_name(out, b" INTO ", table)
}

#[tactic(auto, unfolding(crate::specs::Texts::operator_text))]
fn write_rename_column(
    out: &mut Vec<u8>,
    column: &Name,
    table: &Name,
    into: &Name,
) -> Result<(), NoMemory>
    ensures { OnOk result (out.new.items ≡ out.old.items
        ++ operator_text (rename_column column.now table.now into.now)) }
{
    put_names(out, b"RENAME COLUMN ", column, b" IN ", table)?;
    put_name(out, b" TO ", into)
}

// An operator.
#[tactic(auto, unfolding(crate::specs::Texts::operator_text))]
fn write_op(out: &mut Vec<u8>, op: &Op) -> Result<(), NoMemory>
    ensures { OnOk result (out.new.items ≡ out.old.items ++ operator_text (operator_of op.now)) }
{
    match op {
        Op::Nop => put(out, b"NOP"),
        Op::CreateTable { table, columns } => write_create_table(out, table, columns),
        Op::DropTable { table } => put_name(out, b"DROP TABLE ", table),
        Op::RenameTable { table, into } => put_names(out, b"RENAME TABLE ", table, b" INTO ", into),
        Op::CopyTable { table, into } => put_names(out, b"COPY TABLE ", table, b" INTO ", into),
        Op::MergeTable { left, right, into } => write_merge_table(out, left, right, into),
        Op::PartitionTable {
            table,
            yes,
            cond,
            no,
        } => write_partition_table(out, table, yes, cond, no),
        Op::DecomposeTable {
            table,
            left,
            left_columns,
            right,
            right_columns,
        } => write_decompose_table(out, table, left, left_columns, right, right_columns),
        Op::JoinTable {
            left,
            right,
            into,
            cond,
        } => write_join_table(out, left, right, into, cond),
        Op::AddColumn {
            column,
            expr,
            table,
        } => write_add_column(out, column, expr, table),
        Op::DropColumn { column, table } => {
            put_names(out, b"DROP COLUMN ", column, b" FROM ", table)
        }
        Op::RenameColumn {
            column,
            table,
            into,
        } => write_rename_column(out, column, table, into),
    }
}

/// An operator's canonical text: one space between words and operands, `, ` between the members of
/// a list, a JOIN with its WHERE always. Columns of the table that an expression or a condition is
/// over stand by their names alone. The one error is `NoMemory`, where memory runs out.
pub fn op_text(alloc: Global, op: &Op) -> Result<Vec<u8>, NoMemory>
    ensures { IfOk result (λ v. v.items ≡ operator_text (operator_of op.now)) }
{
    let mut text = Vec::new(alloc);
    write_op(&mut text, op)?;
    Ok(text)
}
