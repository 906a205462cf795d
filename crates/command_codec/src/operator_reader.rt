//! Reading operators.

ghost use Rattle.smo_ops_types.specs.Operators.{operator_of, operators_of};
ghost use Rattle.command_codec_spec.specs.Reading.{map_to, pair};
ghost use Rattle.command_codec_spec.specs.Reader as spec;
ghost use Rattle.command_codec.specs.Reads.{Reads};

use crate::field::{column_type, name};
use crate::list::{Listed, read_list};
use crate::reader::{ReadStop, Reader};
use crate::tree_reader::{outer_cond, outer_expr};
use prima_base::{ColType, Name};
use smo_ops_types::Op;
use std::alloc::Global;

// A column's name and its type.
#[tactic(auto, unfolding(command_codec_spec::specs::Reader::column_of))]
fn column(alloc: Global, reader: &mut Reader<'_>) -> Result<(Name, ColType), ReadStop>
    ensures { Reads (λ c. c) (spec.column_of reader.old.rest.now) result reader.new.rest.now }
{
    let column = name(alloc, reader)?;
    let kind = column_type(reader)?;
    Ok((column, kind))
}

// A column's name and its type, in a list.
impl Listed for (Name, ColType) {
    ghost use Rattle.command_codec_spec.specs.Reader as spec;
    ghost use Rattle.command_codec.specs.Items.{item_of};

    ghost item = { item_of spec.column_of (λ c. c) };

    fn read(alloc: Global, reader: &mut Reader<'_>) -> Result<(Name, ColType), ReadStop> {
        column(alloc, reader)
    }
}

// Columns, with their count before them.
#[tactic(auto, unfolding(command_codec_spec::specs::Reader::columns))]
fn columns(alloc: Global, reader: &mut Reader<'_>) -> Result<Vec<(Name, ColType)>, ReadStop>
    ensures { Reads (λ v. v.items) (spec.columns reader.old.rest.now) result reader.new.rest.now }
{
    read_list(alloc, reader, 1, 0xFF)
}

// A name, in a list.
impl Listed for Name {
    ghost use Rattle.command_codec_spec.specs.Reader as spec;
    ghost use Rattle.command_codec.specs.Items.{item_of};

    ghost item = { item_of spec.name (λ n. n) };

    fn read(alloc: Global, reader: &mut Reader<'_>) -> Result<Name, ReadStop> {
        name(alloc, reader)
    }
}

// Names, with their count before them.
#[tactic(auto, unfolding(command_codec_spec::specs::Reader::names))]
fn names(alloc: Global, reader: &mut Reader<'_>) -> Result<Vec<Name>, ReadStop>
    ensures { Reads (λ v. v.items) (spec.names reader.old.rest.now) result reader.new.rest.now }
{
    read_list(alloc, reader, 1, 0xFF)
}

// Two names.
#[tactic(auto, unfolding(command_codec_spec::specs::Reader::two_names))]
fn two_names(alloc: Global, reader: &mut Reader<'_>) -> Result<(Name, Name), ReadStop>
    ensures { Reads (λ x. (x.0, x.1)) (spec.two_names reader.old.rest.now) result
        reader.new.rest.now }
{
    let first = name(alloc, reader)?;
    let second = name(alloc, reader)?;
    Ok((first, second))
}

// Three names.
#[tactic(auto, unfolding(command_codec_spec::specs::Reader::three_names))]
fn three_names(alloc: Global, reader: &mut Reader<'_>) -> Result<(Name, Name, Name), ReadStop>
    ensures { Reads (λ x. ((x.0, x.1), x.2)) (spec.three_names reader.old.rest.now) result
        reader.new.rest.now }
{
    let (first, second) = two_names(alloc, reader)?;
    let third = name(alloc, reader)?;
    Ok((first, second, third))
}

// What stands after the tag of CREATE TABLE.
fn created_table(alloc: Global, reader: &mut Reader<'_>) -> Result<Op, ReadStop>
    ensures { Reads operator_of (map_to spec.created_table (pair spec.name spec.columns)
        reader.old.rest.now) result reader.new.rest.now }
{
    let table = name(alloc, reader)?;
    let columns = columns(alloc, reader)?;
    Ok(Op::CreateTable { table, columns })
}

// What stands after the tag of PARTITION TABLE.
fn partitioned_table(alloc: Global, reader: &mut Reader<'_>) -> Result<Op, ReadStop>
    ensures { Reads operator_of (map_to spec.partition_of
        (pair (pair spec.two_names spec.outermost.cond) spec.name) reader.old.rest.now) result
        reader.new.rest.now }
{
    let (table, yes) = two_names(alloc, reader)?;
    let cond = outer_cond(alloc, reader)?;
    let no = name(alloc, reader)?;
    Ok(Op::PartitionTable {
        table,
        yes,
        cond,
        no,
    })
}

// What stands after the tag of DECOMPOSE TABLE.
fn decomposed_table(alloc: Global, reader: &mut Reader<'_>) -> Result<Op, ReadStop>
    ensures { Reads operator_of (map_to spec.decompose_of
        (pair (pair (pair spec.two_names spec.names) spec.name) spec.names) reader.old.rest.now)
        result reader.new.rest.now }
{
    let (table, left) = two_names(alloc, reader)?;
    let left_columns = names(alloc, reader)?;
    let right = name(alloc, reader)?;
    let right_columns = names(alloc, reader)?;
    Ok(Op::DecomposeTable {
        table,
        left,
        left_columns,
        right,
        right_columns,
    })
}

// What stands after the tag of JOIN TABLE.
fn joined_table(alloc: Global, reader: &mut Reader<'_>) -> Result<Op, ReadStop>
    ensures { Reads operator_of (map_to spec.joined_tables
        (pair spec.three_names spec.outermost.cond) reader.old.rest.now) result
        reader.new.rest.now }
{
    let (left, right, into) = three_names(alloc, reader)?;
    let cond = outer_cond(alloc, reader)?;
    Ok(Op::JoinTable {
        left,
        right,
        into,
        cond,
    })
}

// What stands after the tag of ADD COLUMN.
fn added_column(alloc: Global, reader: &mut Reader<'_>) -> Result<Op, ReadStop>
    ensures { Reads operator_of (map_to spec.added_column
        (pair spec.two_names spec.outermost.expr) reader.old.rest.now) result reader.new.rest.now }
{
    let (table, column) = two_names(alloc, reader)?;
    let expr = outer_expr(alloc, reader)?;
    Ok(Op::AddColumn {
        column,
        expr,
        table,
    })
}

// What stands after the tag of RENAME COLUMN.
fn renamed_column(alloc: Global, reader: &mut Reader<'_>) -> Result<Op, ReadStop>
    ensures { Reads operator_of (map_to spec.renamed_column spec.three_names
        reader.old.rest.now) result reader.new.rest.now }
{
    let (table, column, into) = three_names(alloc, reader)?;
    Ok(Op::RenameColumn {
        column,
        table,
        into,
    })
}

/// An operator.
#[tactic(auto, unfolding(command_codec_spec::specs::Reader::operator))]
pub fn op(alloc: Global, reader: &mut Reader<'_>) -> Result<Op, ReadStop>
    ensures { Reads operator_of (spec.operator reader.old.rest.now) result reader.new.rest.now }
{
    match reader.tag(11)? {
        0 => Ok(Op::Nop),
        1 => created_table(alloc, reader),
        2 => Ok(Op::DropTable {
            table: name(alloc, reader)?,
        }),
        3 => {
            let (table, into) = two_names(alloc, reader)?;
            Ok(Op::RenameTable { table, into })
        }
        4 => {
            let (table, into) = two_names(alloc, reader)?;
            Ok(Op::CopyTable { table, into })
        }
        5 => {
            let (left, right, into) = three_names(alloc, reader)?;
            Ok(Op::MergeTable { left, right, into })
        }
        6 => partitioned_table(alloc, reader),
        7 => decomposed_table(alloc, reader),
        8 => joined_table(alloc, reader),
        9 => added_column(alloc, reader),
        10 => {
            let (table, column) = two_names(alloc, reader)?;
            Ok(Op::DropColumn { column, table })
        }
        _ => renamed_column(alloc, reader),
    }
}

// An operator, in a list.
impl Listed for Op {
    ghost use Rattle.smo_ops_types.specs.Operators.{operator_of};
    ghost use Rattle.command_codec_spec.specs.Reader as spec;
    ghost use Rattle.command_codec.specs.Items.{item_of};

    ghost item = { item_of spec.operator operator_of };

    fn read(alloc: Global, reader: &mut Reader<'_>) -> Result<Op, ReadStop> {
        op(alloc, reader)
    }
}

/// Operators, with their count before them.
#[tactic(auto, unfolding(command_codec_spec::specs::Reader::operators))]
pub fn ops(alloc: Global, reader: &mut Reader<'_>) -> Result<Vec<Op>, ReadStop>
    ensures { Reads (λ v. operators_of v.items) (spec.operators reader.old.rest.now) result
        reader.new.rest.now }
{
    read_list(alloc, reader, 4, 0xFFFF_FFFF)
}
