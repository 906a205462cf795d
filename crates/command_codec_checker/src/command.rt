//! Changes and commands.

ghost use Rattle.command_codec_spec.specs.Reading.{map_to, pair};
ghost use Rattle.command_codec_spec.specs.Reader as spec;
ghost use Rattle.command_codec.specs.Reads.{Recognizes};

use crate::field::{check_name, check_value};
use crate::list::{Listed, check_list};
use crate::operator::{check_op, check_ops};
use crate::tree::{check_outer_cond, check_outer_expr};
use command_codec::{Reader, Unexpected};
use prima_base::FOREVER;

// Goes over a column's name and its value.
#[tactic(auto, unfolding(command_codec_spec::specs::Reader::cell))]
fn check_cell(reader: &mut Reader<'_>) -> Result<(), Unexpected>
    ensures { Recognizes (spec.cell reader.old.rest.now) result reader.new.rest.now }
{
    check_name(reader)?;
    check_value(reader)
}

// A column's name and its value.
struct Cell;

impl Listed for Cell {
    ghost use Rattle.command_codec_spec.specs.Reader as spec;
    ghost use Rattle.command_codec_checker.specs.Productions.{production_of};

    ghost production = { λ _. production_of spec.cell };

    fn check(&self, reader: &mut Reader<'_>) -> Result<(), Unexpected> {
        check_cell(reader)
    }
}

// Goes over cells, with their count before them.
#[tactic(auto, unfolding(command_codec_spec::specs::Reader::cells))]
fn check_cells(reader: &mut Reader<'_>) -> Result<(), Unexpected>
    ensures { Recognizes (spec.cells reader.old.rest.now) result reader.new.rest.now }
{
    check_list(&Cell, reader, 4, 0xFFFF_FFFF)
}

// Goes over a column's name and what it is set to.
#[tactic(auto, unfolding(command_codec_spec::specs::Reader::set))]
fn check_set(reader: &mut Reader<'_>) -> Result<(), Unexpected>
    ensures { Recognizes (spec.set reader.old.rest.now) result reader.new.rest.now }
{
    check_name(reader)?;
    check_outer_expr(reader)
}

// A column's name and what it is set to.
struct Setting;

impl Listed for Setting {
    ghost use Rattle.command_codec_spec.specs.Reader as spec;
    ghost use Rattle.command_codec_checker.specs.Productions.{production_of};

    ghost production = { λ _. production_of spec.set };

    fn check(&self, reader: &mut Reader<'_>) -> Result<(), Unexpected> {
        check_set(reader)
    }
}

// Goes over what columns are set to, with their count before them.
#[tactic(auto, unfolding(command_codec_spec::specs::Reader::sets))]
fn check_sets(reader: &mut Reader<'_>) -> Result<(), Unexpected>
    ensures { Recognizes (spec.sets reader.old.rest.now) result reader.new.rest.now }
{
    check_list(&Setting, reader, 4, 0xFFFF_FFFF)
}

// Goes over what stands after the tag of INSERT.
fn check_insert(reader: &mut Reader<'_>) -> Result<(), Unexpected>
    ensures { Recognizes (map_to spec.insert_of (pair spec.name spec.cells)
        reader.old.rest.now) result reader.new.rest.now }
{
    check_name(reader)?;
    check_cells(reader)
}

// Goes over what stands after the tag of DELETE.
fn check_delete(reader: &mut Reader<'_>) -> Result<(), Unexpected>
    ensures { Recognizes (map_to spec.delete_of (pair spec.name spec.outermost.cond)
        reader.old.rest.now) result reader.new.rest.now }
{
    check_name(reader)?;
    check_outer_cond(reader)
}

// Goes over what stands after the tag of UPDATE.
fn check_update(reader: &mut Reader<'_>) -> Result<(), Unexpected>
    ensures { Recognizes (map_to spec.update_of
        (pair (pair spec.name spec.sets) spec.outermost.cond) reader.old.rest.now) result
        reader.new.rest.now }
{
    check_name(reader)?;
    check_sets(reader)?;
    check_outer_cond(reader)
}

// Goes over a change.
#[tactic(auto, unfolding(command_codec_spec::specs::Reader::change))]
fn check_change(reader: &mut Reader<'_>) -> Result<(), Unexpected>
    ensures { Recognizes (spec.change reader.old.rest.now) result reader.new.rest.now }
{
    match reader.tag(2)? {
        0 => check_insert(reader),
        1 => check_delete(reader),
        _ => check_update(reader),
    }
}

// A change.
struct Change;

impl Listed for Change {
    ghost use Rattle.command_codec_spec.specs.Reader as spec;
    ghost use Rattle.command_codec_checker.specs.Productions.{production_of};

    ghost production = { λ _. production_of spec.change };

    fn check(&self, reader: &mut Reader<'_>) -> Result<(), Unexpected> {
        check_change(reader)
    }
}

// Goes over changes, with their count before them.
#[tactic(auto, unfolding(command_codec_spec::specs::Reader::changes))]
fn check_changes(reader: &mut Reader<'_>) -> Result<(), Unexpected>
    ensures { Recognizes (spec.changes reader.old.rest.now) result reader.new.rest.now }
{
    check_list(&Change, reader, 4, 0xFFFF_FFFF)
}

// Goes over an operator and those of its inverse.
fn check_evolution(reader: &mut Reader<'_>) -> Result<(), Unexpected>
    ensures { Recognizes (map_to spec.evolved (pair spec.operator spec.operators)
        reader.old.rest.now) result reader.new.rest.now }
{
    check_op(reader)?;
    check_ops(reader)
}

// Goes over what a command does.
#[tactic(auto, unfolding(command_codec_spec::specs::Reader::body))]
fn check_body(reader: &mut Reader<'_>) -> Result<(), Unexpected>
    ensures { Recognizes (spec.body reader.old.rest.now) result reader.new.rest.now }
{
    match reader.tag(1)? {
        0 => check_changes(reader),
        _ => check_evolution(reader),
    }
}

/// Goes over a command.
#[tactic(auto, unfolding(command_codec_spec::specs::Reader::command))]
pub(crate) fn check_command(reader: &mut Reader<'_>) -> Result<(), Unexpected>
    ensures { Recognizes (spec.command reader.old.rest.now) result reader.new.rest.now }
{
    reader.number(8, FOREVER - 1)?;
    check_body(reader)
}
