//! Reading changes and commands.

ghost use Rattle.smo_ops_types.specs.Changes.{change_of, changes_of, set_of_expr, sets_of};
ghost use Rattle.smo_ops_types.specs.Commands.{body_of, command_of, changing, evolving};
ghost use Rattle.command_codec_spec.specs.Reading.{map_to, pair};
ghost use Rattle.command_codec_spec.specs.Reader as spec;
ghost use Rattle.command_codec.specs.Reads.{Reads};

use crate::field::{name, value};
use crate::list::{Listed, read_list};
use crate::operator_reader::{op, ops};
use crate::reader::{ReadStop, Reader};
use crate::tree_reader::{outer_cond, outer_expr};
use cond_expr::Expr;
use prima_base::{FOREVER, Name, Value};
use smo_ops_types::{Body, Change, Command};
use std::alloc::Global;

// A column's name and its value.
#[tactic(auto, unfolding(command_codec_spec::specs::Reader::cell))]
fn cell(alloc: Global, reader: &mut Reader<'_>) -> Result<(Name, Value), ReadStop>
    ensures { Reads (λ c. c) (spec.cell reader.old.rest.now) result reader.new.rest.now }
{
    let column = name(alloc, reader)?;
    let value = value(alloc, reader)?;
    Ok((column, value))
}

// A column's name and its value, in a list.
impl Listed for (Name, Value) {
    ghost use Rattle.command_codec_spec.specs.Reader as spec;
    ghost use Rattle.command_codec.specs.Items.{item_of};

    ghost item = { item_of spec.cell (λ c. c) };

    fn read(alloc: Global, reader: &mut Reader<'_>) -> Result<(Name, Value), ReadStop> {
        cell(alloc, reader)
    }
}

// Cells, with their count before them.
#[tactic(auto, unfolding(command_codec_spec::specs::Reader::cells))]
fn cells(alloc: Global, reader: &mut Reader<'_>) -> Result<Vec<(Name, Value)>, ReadStop>
    ensures { Reads (λ v. v.items) (spec.cells reader.old.rest.now) result reader.new.rest.now }
{
    read_list(alloc, reader, 4, 0xFFFF_FFFF)
}

// A column's name and what it is set to.
#[tactic(auto, unfolding(command_codec_spec::specs::Reader::set))]
fn set(alloc: Global, reader: &mut Reader<'_>) -> Result<(Name, Expr), ReadStop>
    ensures { Reads set_of_expr (spec.set reader.old.rest.now) result reader.new.rest.now }
{
    let column = name(alloc, reader)?;
    let expr = outer_expr(alloc, reader)?;
    Ok((column, expr))
}

// A column's name and what it is set to, in a list.
impl Listed for (Name, Expr) {
    ghost use Rattle.smo_ops_types.specs.Changes.{set_of_expr};
    ghost use Rattle.command_codec_spec.specs.Reader as spec;
    ghost use Rattle.command_codec.specs.Items.{item_of};

    ghost item = { item_of spec.set set_of_expr };

    fn read(alloc: Global, reader: &mut Reader<'_>) -> Result<(Name, Expr), ReadStop> {
        set(alloc, reader)
    }
}

// What columns are set to, with their count before them.
#[tactic(auto, unfolding(command_codec_spec::specs::Reader::sets))]
fn sets(alloc: Global, reader: &mut Reader<'_>) -> Result<Vec<(Name, Expr)>, ReadStop>
    ensures { Reads (λ v. sets_of v.items) (spec.sets reader.old.rest.now) result
        reader.new.rest.now }
{
    read_list(alloc, reader, 4, 0xFFFF_FFFF)
}

// What stands after the tag of INSERT.
fn insert(alloc: Global, reader: &mut Reader<'_>) -> Result<Change, ReadStop>
    ensures { Reads change_of (map_to spec.insert_of (pair spec.name spec.cells)
        reader.old.rest.now) result reader.new.rest.now }
{
    let table = name(alloc, reader)?;
    let cells = cells(alloc, reader)?;
    Ok(Change::Insert { table, cells })
}

// What stands after the tag of DELETE.
fn delete(alloc: Global, reader: &mut Reader<'_>) -> Result<Change, ReadStop>
    ensures { Reads change_of (map_to spec.delete_of (pair spec.name spec.outermost.cond)
        reader.old.rest.now) result reader.new.rest.now }
{
    let table = name(alloc, reader)?;
    let cond = outer_cond(alloc, reader)?;
    Ok(Change::Delete { table, cond })
}

// What stands after the tag of UPDATE.
fn update(alloc: Global, reader: &mut Reader<'_>) -> Result<Change, ReadStop>
    ensures { Reads change_of (map_to spec.update_of
        (pair (pair spec.name spec.sets) spec.outermost.cond) reader.old.rest.now) result
        reader.new.rest.now }
{
    let table = name(alloc, reader)?;
    let sets = sets(alloc, reader)?;
    let cond = outer_cond(alloc, reader)?;
    Ok(Change::Update { table, sets, cond })
}

// A change.
#[tactic(auto, unfolding(command_codec_spec::specs::Reader::change))]
fn change(alloc: Global, reader: &mut Reader<'_>) -> Result<Change, ReadStop>
    ensures { Reads change_of (spec.change reader.old.rest.now) result reader.new.rest.now }
{
    match reader.tag(2)? {
        0 => insert(alloc, reader),
        1 => delete(alloc, reader),
        _ => update(alloc, reader),
    }
}

// A change, in a list.
impl Listed for Change {
    ghost use Rattle.smo_ops_types.specs.Changes.{change_of};
    ghost use Rattle.command_codec_spec.specs.Reader as spec;
    ghost use Rattle.command_codec.specs.Items.{item_of};

    ghost item = { item_of spec.change change_of };

    fn read(alloc: Global, reader: &mut Reader<'_>) -> Result<Change, ReadStop> {
        change(alloc, reader)
    }
}

// Changes, with their count before them.
#[tactic(auto, unfolding(command_codec_spec::specs::Reader::changes))]
fn changes(alloc: Global, reader: &mut Reader<'_>) -> Result<Vec<Change>, ReadStop>
    ensures { Reads (λ v. changes_of v.items) (spec.changes reader.old.rest.now) result
        reader.new.rest.now }
{
    read_list(alloc, reader, 4, 0xFFFF_FFFF)
}

// What a command does.
#[tactic(auto, unfolding(command_codec_spec::specs::Reader::body))]
fn body(alloc: Global, reader: &mut Reader<'_>) -> Result<Body, ReadStop>
    ensures { Reads body_of (spec.body reader.old.rest.now) result reader.new.rest.now }
{
    match reader.tag(1)? {
        0 => Ok(Body::Changes(changes(alloc, reader)?)),
        _ => {
            let op = op(alloc, reader)?;
            let inverse = ops(alloc, reader)?;
            Ok(Body::Evolve { op, inverse })
        }
    }
}

/// A command.
#[tactic(auto, unfolding(command_codec_spec::specs::Reader::command))]
pub fn command(alloc: Global, reader: &mut Reader<'_>) -> Result<Command, ReadStop>
    ensures { Reads command_of (spec.command reader.old.rest.now) result reader.new.rest.now }
{
    let stamp = reader.number(8, FOREVER - 1)?;
    let body = body(alloc, reader)?;
    Ok(Command::of(stamp, body))
}
