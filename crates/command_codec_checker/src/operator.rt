//! Operators.

ghost use Rattle.command_codec_spec.specs.Reading.{map_to, pair};
ghost use Rattle.command_codec_spec.specs.Reader as spec;
ghost use Rattle.command_codec.specs.Reads.{Recognizes};

use crate::field::{check_column_type, check_name};
use crate::list::{Listed, check_list};
use crate::tree::{check_outer_cond, check_outer_expr};
use command_codec::{Reader, Unexpected};

// Goes over a column's name and its type.
#[tactic(auto, unfolding(command_codec_spec::specs::Reader::column_of))]
fn check_column(reader: &mut Reader<'_>) -> Result<(), Unexpected>
    ensures { Recognizes (spec.column_of reader.old.rest.now) result reader.new.rest.now }
{
    check_name(reader)?;
    check_column_type(reader)
}

// A column's name and its type.
struct Column;

impl Listed for Column {
    ghost use Rattle.command_codec_spec.specs.Reader as spec;
    ghost use Rattle.command_codec_checker.specs.Productions.{production_of};

    ghost production = { λ _. production_of spec.column_of };

    fn check(&self, reader: &mut Reader<'_>) -> Result<(), Unexpected> {
        check_column(reader)
    }
}

// Goes over columns, with their count before them.
#[tactic(auto, unfolding(command_codec_spec::specs::Reader::columns))]
fn check_columns(reader: &mut Reader<'_>) -> Result<(), Unexpected>
    ensures { Recognizes (spec.columns reader.old.rest.now) result reader.new.rest.now }
{
    check_list(&Column, reader, 1, 0xFF)
}

// A name.
struct Name;

impl Listed for Name {
    ghost use Rattle.command_codec_spec.specs.Reader as spec;
    ghost use Rattle.command_codec_checker.specs.Productions.{production_of};

    ghost production = { λ _. production_of spec.name };

    fn check(&self, reader: &mut Reader<'_>) -> Result<(), Unexpected> {
        check_name(reader)
    }
}

// Goes over names, with their count before them.
#[tactic(auto, unfolding(command_codec_spec::specs::Reader::names))]
fn check_names(reader: &mut Reader<'_>) -> Result<(), Unexpected>
    ensures { Recognizes (spec.names reader.old.rest.now) result reader.new.rest.now }
{
    check_list(&Name, reader, 1, 0xFF)
}

// Goes over two names.
#[tactic(auto, unfolding(command_codec_spec::specs::Reader::two_names))]
fn check_two_names(reader: &mut Reader<'_>) -> Result<(), Unexpected>
    ensures { Recognizes (spec.two_names reader.old.rest.now) result reader.new.rest.now }
{
    check_name(reader)?;
    check_name(reader)
}

// Goes over three names.
#[tactic(auto, unfolding(command_codec_spec::specs::Reader::three_names))]
fn check_three_names(reader: &mut Reader<'_>) -> Result<(), Unexpected>
    ensures { Recognizes (spec.three_names reader.old.rest.now) result reader.new.rest.now }
{
    check_two_names(reader)?;
    check_name(reader)
}

// Goes over what stands after the tag of CREATE TABLE.
fn check_created_table(reader: &mut Reader<'_>) -> Result<(), Unexpected>
    ensures { Recognizes (map_to spec.created_table (pair spec.name spec.columns)
        reader.old.rest.now) result reader.new.rest.now }
{
    check_name(reader)?;
    check_columns(reader)
}

// Goes over what stands after the tag of PARTITION TABLE.
fn check_partitioned_table(reader: &mut Reader<'_>) -> Result<(), Unexpected>
    ensures { Recognizes (map_to spec.partition_of
        (pair (pair spec.two_names spec.outermost.cond) spec.name) reader.old.rest.now) result
        reader.new.rest.now }
{
    check_two_names(reader)?;
    check_outer_cond(reader)?;
    check_name(reader)
}

// Goes over what stands after the tag of DECOMPOSE TABLE.
fn check_decomposed_table(reader: &mut Reader<'_>) -> Result<(), Unexpected>
    ensures { Recognizes (map_to spec.decompose_of
        (pair (pair (pair spec.two_names spec.names) spec.name) spec.names) reader.old.rest.now)
        result reader.new.rest.now }
{
    check_two_names(reader)?;
    check_names(reader)?;
    check_name(reader)?;
    check_names(reader)
}

// Goes over what stands after the tag of JOIN TABLE.
fn check_joined_table(reader: &mut Reader<'_>) -> Result<(), Unexpected>
    ensures { Recognizes (map_to spec.joined_tables
        (pair spec.three_names spec.outermost.cond) reader.old.rest.now) result
        reader.new.rest.now }
{
    check_three_names(reader)?;
    check_outer_cond(reader)
}

// Goes over what stands after the tag of ADD COLUMN.
fn check_added_column(reader: &mut Reader<'_>) -> Result<(), Unexpected>
    ensures { Recognizes (map_to spec.added_column
        (pair spec.two_names spec.outermost.expr) reader.old.rest.now) result reader.new.rest.now }
{
    check_two_names(reader)?;
    check_outer_expr(reader)
}

/// Goes over an operator.
#[tactic(auto, unfolding(command_codec_spec::specs::Reader::operator))]
pub(crate) fn check_op(reader: &mut Reader<'_>) -> Result<(), Unexpected>
    ensures { Recognizes (spec.operator reader.old.rest.now) result reader.new.rest.now }
{
    match reader.tag(11)? {
        0 => Ok(()),
        1 => check_created_table(reader),
        2 => check_name(reader),
        3 | 4 | 10 => check_two_names(reader),
        5 | 11 => check_three_names(reader),
        6 => check_partitioned_table(reader),
        7 => check_decomposed_table(reader),
        8 => check_joined_table(reader),
        _ => check_added_column(reader),
    }
}

// An operator.
struct Operator;

impl Listed for Operator {
    ghost use Rattle.command_codec_spec.specs.Reader as spec;
    ghost use Rattle.command_codec_checker.specs.Productions.{production_of};

    ghost production = { λ _. production_of spec.operator };

    fn check(&self, reader: &mut Reader<'_>) -> Result<(), Unexpected> {
        check_op(reader)
    }
}

/// Goes over operators, with their count before them.
#[tactic(auto, unfolding(command_codec_spec::specs::Reader::operators))]
pub(crate) fn check_ops(reader: &mut Reader<'_>) -> Result<(), Unexpected>
    ensures { Recognizes (spec.operators reader.old.rest.now) result reader.new.rest.now }
{
    check_list(&Operator, reader, 4, 0xFFFF_FFFF)
}
