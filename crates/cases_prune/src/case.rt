//! A case: a condition, and whether it is dead.

use cond_expr::{Column, Cond, check_cond, cond_size};
use cond_expr_dead::is_dead;
use lexer::{parse_cond, tokens};
use prima_base::limits::{MAX_NODES, MAX_STATEMENT};
use prima_base::{ColType, Name, NoMemory};
use std::alloc::{AllocError, Global};

fn column(alloc: Global, name: &[u8], kind: ColType) -> Result<Column, NoMemory> {
    match Name::new(alloc, name) {
        Ok(name) => Ok(Column {
            atom: 0,
            name,
            kind,
        }),
        Err(_) => Err(NoMemory),
    }
}

// The columns of the table of the cases.
fn columns(alloc: Global) -> Result<Vec<Column>, NoMemory> {
    let mut columns = Vec::with_capacity(alloc, 4)?;
    columns.push(column(alloc, b"a", ColType::Int)?)?;
    columns.push(column(alloc, b"b", ColType::Text)?)?;
    columns.push(column(alloc, b"c", ColType::Int)?)?;
    columns.push(column(alloc, b"d", ColType::Text)?)?;
    Ok(columns)
}

// The condition that is the whole text.
fn read_condition(alloc: Global, text: &[u8]) -> Option<Cond> {
    if text.len() > MAX_STATEMENT {
        return None;
    }
    match tokens(alloc, text) {
        Ok(list) => match parse_cond(alloc, &list, 0, false) {
            Ok((cond, after)) => {
                if after == list.len() {
                    return Some(cond);
                }
                None
            }
            Err(_) => None,
        },
        Err(_) => None,
    }
}

// Whether the condition has a type over the columns.
fn is_typed(cond: &Cond, columns: &[Column]) -> bool {
    cond_size(cond).nodes <= MAX_NODES && check_cond(cond, columns).is_ok()
}

fn check(alloc: Global, columns: &[Column], text: &[u8]) -> &'static [u8] {
    match read_condition(alloc, text) {
        Some(cond) => {
            if !is_typed(&cond, columns) {
                return b"of no type";
            }
            if is_dead(&cond) { b"dead" } else { b"alive" }
        }
        None => b"not read",
    }
}

// The place of the first colon.
fn colon(line: &[u8]) -> Option<usize> {
    line.iter().position(|b| *b == b':')
}

fn write_line(
    alloc: Global,
    columns: &[Column],
    line: &[u8],
    answers: &mut Vec<u8>,
) -> Result<(), NoMemory> {
    if let Some(place) = colon(line) {
        if place < line.len() {
            answers.extend_from_slice(&line[..place])?;
            answers.push(b' ')?;
            answers.extend_from_slice(check(alloc, columns, &line[place + 1..]))?;
            answers.push(b'\n')?;
        }
    }
    Ok(())
}

/// Plays the cases of a text of lines. The one error comes where memory runs out.
pub(crate) fn play(alloc: Global, cases: &[u8]) -> Result<Vec<u8>, AllocError> {
    match play_lines(alloc, cases) {
        Ok(answers) => Ok(answers),
        Err(NoMemory) => Err(AllocError),
    }
}

// The same, with the one word when out of memory that the crates below have.
fn play_lines(alloc: Global, cases: &[u8]) -> Result<Vec<u8>, NoMemory> {
    let columns = columns(alloc)?;
    let mut answers = Vec::new(alloc);
    let mut begin = 0;
    for at in 0..cases.len() {
        if cases[at] == b'\n' {
            write_line(alloc, &columns, &cases[begin..at], &mut answers)?;
            begin = at + 1;
        }
    }
    Ok(answers)
}
