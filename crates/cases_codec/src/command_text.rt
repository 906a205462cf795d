//! Commands as a script has them.

use cases_text::write_number;
use cond_expr::{Cond, Expr};
use prima_base::{Name, NoMemory, Value};
use smo_ops_types::{Body, Change, Command, Op};
use smo_parse::op_text;
use std::alloc::Global;

// A name for what is printed inside an operator.
fn any_name(alloc: Global) -> Result<Name, NoMemory> {
    match Name::new(alloc, b"t") {
        Ok(name) => Ok(name),
        Err(_) => Err(NoMemory),
    }
}

// An operator's text without so many bytes in prefix and at the end.
fn inside(alloc: Global, op: &Op, prefix: usize, end: usize) -> Result<Vec<u8>, NoMemory> {
    let text = op_text(alloc, op)?;
    let part = text
        .get(prefix..text.len().saturating_sub(end))
        .unwrap_or_default();
    Ok(Vec::from_slice(alloc, part)?)
}

// A condition's text: the part of a PARTITION that it is.
fn cond_text(alloc: Global, cond: Cond) -> Result<Vec<u8>, NoMemory> {
    let op = Op::PartitionTable {
        table: any_name(alloc)?,
        yes: any_name(alloc)?,
        no: any_name(alloc)?,
        cond,
    };
    inside(
        alloc,
        &op,
        b"PARTITION TABLE t INTO t WITH ".len(),
        b", t".len(),
    )
}

// An expression's text: the part of an ADD COLUMN that it is.
fn expr_text(alloc: Global, expr: Expr) -> Result<Vec<u8>, NoMemory> {
    let op = Op::AddColumn {
        column: any_name(alloc)?,
        table: any_name(alloc)?,
        expr,
    };
    inside(alloc, &op, b"ADD COLUMN t AS ".len(), b" INTO t".len())
}

// The columns' names and the values of an INSERT.
fn write_cells(
    alloc: Global,
    cells: Vec<(Name, Value)>,
    text: &mut Vec<u8>,
) -> Result<(), NoMemory> {
    let mut values = Vec::new(alloc);
    text.extend_from_slice(b" (")?;
    for (column, value) in cells {
        if !values.is_empty() {
            text.extend_from_slice(b", ")?;
            values.extend_from_slice(b", ")?;
        }
        text.extend_from_slice(column.bytes())?;
        values.extend_from_slice(&expr_text(alloc, Expr::Const(value))?)?;
    }
    text.extend_from_slice(b") VALUES (")?;
    text.extend_from_slice(&values)?;
    text.extend_from_slice(b")")?;
    Ok(())
}

// What an UPDATE sets.
fn write_sets(alloc: Global, sets: Vec<(Name, Expr)>, text: &mut Vec<u8>) -> Result<(), NoMemory> {
    let mut between: &[u8] = b" SET ";
    for (column, expr) in sets {
        text.extend_from_slice(between)?;
        text.extend_from_slice(column.bytes())?;
        text.extend_from_slice(b" = ")?;
        text.extend_from_slice(&expr_text(alloc, expr)?)?;
        between = b", ";
    }
    Ok(())
}

// A change.
fn write_change(alloc: Global, change: Change, text: &mut Vec<u8>) -> Result<(), NoMemory> {
    match change {
        Change::Insert { table, cells } => {
            text.extend_from_slice(b"INSERT INTO ")?;
            text.extend_from_slice(table.bytes())?;
            write_cells(alloc, cells, text)
        }
        Change::Delete { table, cond } => {
            text.extend_from_slice(b"DELETE FROM ")?;
            text.extend_from_slice(table.bytes())?;
            text.extend_from_slice(b" WHERE ")?;
            text.extend_from_slice(&cond_text(alloc, cond)?)?;
            Ok(())
        }
        Change::Update { table, sets, cond } => {
            text.extend_from_slice(b"UPDATE ")?;
            text.extend_from_slice(table.bytes())?;
            write_sets(alloc, sets, text)?;
            text.extend_from_slice(b" WHERE ")?;
            text.extend_from_slice(&cond_text(alloc, cond)?)?;
            Ok(())
        }
    }
}

// Changes.
fn write_all(alloc: Global, changes: Vec<Change>, text: &mut Vec<u8>) -> Result<(), NoMemory> {
    if changes.is_empty() {
        text.extend_from_slice(b"nothing")?;
    }
    let mut between: &[u8] = b"";
    for change in changes {
        text.extend_from_slice(between)?;
        write_change(alloc, change, text)?;
        between = b" THEN ";
    }
    Ok(())
}

// The operators of an inverse.
fn write_inverse(alloc: Global, inverse: &[Op], text: &mut Vec<u8>) -> Result<(), NoMemory> {
    let mut between: &[u8] = b" INVERSE ";
    for op in inverse {
        text.extend_from_slice(between)?;
        text.extend_from_slice(&op_text(alloc, op)?)?;
        between = b" THEN ";
    }
    Ok(())
}

// An operator and its inverse.
fn write_evolve(
    alloc: Global,
    op: &Op,
    inverse: &[Op],
    text: &mut Vec<u8>,
) -> Result<(), NoMemory> {
    text.extend_from_slice(b"EVOLVE ")?;
    text.extend_from_slice(&op_text(alloc, op)?)?;
    write_inverse(alloc, inverse, text)
}

// What a command does.
fn write_body(alloc: Global, body: Body, text: &mut Vec<u8>) -> Result<(), NoMemory> {
    match body {
        Body::Changes(changes) => write_all(alloc, changes, text),
        Body::Evolve { op, inverse } => write_evolve(alloc, &op, &inverse, text),
    }
}

/// Puts a command after a text, as a script has it.
pub(crate) fn write_command(
    alloc: Global,
    command: Command,
    text: &mut Vec<u8>,
) -> Result<(), NoMemory> {
    text.extend_from_slice(b"AT ")?;
    write_number(command.stamp(), text)?;
    text.push(b' ')?;
    write_body(alloc, command.into_body(), text)
}
