//! The least width within which pieces are, and the line that tells it.

use cases_text::write_number;
use cond_expr::{cond_size, expr_size};
use piece_ir::{Explained, Piece};
use prima_base::{ColType, Name, NoMemory};
use smo_ops_widths::{TableWidth, size_of};
use std::alloc::Global;

// At least so many nodes stand for the column.
fn raise(sizes: &mut Vec<(Name, u64)>, name: &Name, nodes: u64) -> Result<(), NoMemory> {
    for place in 0..sizes.len() {
        if sizes[place].0 == *name {
            sizes[place].1 = sizes[place].1.max(nodes);
            return Ok(());
        }
    }
    sizes.push((name.copy()?, nodes))?;
    Ok(())
}

// The width takes the piece in.
fn take(width: &mut TableWidth, piece: &Piece) -> Result<(), NoMemory> {
    width.pieces = width.pieces.saturating_add(1);
    width.atoms = width.atoms.max(piece.atoms.len() as u64);
    width.cond = width.cond.max(cond_size(&piece.cond).nodes);
    for (name, expr) in &piece.outs {
        raise(&mut width.sizes, name, expr_size(expr).nodes)?;
    }
    Ok(())
}

/// The least width within which those of the pieces are that read version `stored`.
pub(crate) fn least_width(
    alloc: Global,
    pieces: &[Explained],
    stored: u32,
) -> Result<TableWidth, NoMemory> {
    let mut width = TableWidth {
        pieces: 0,
        atoms: 0,
        cond: 0,
        sizes: Vec::new(alloc),
    };
    for told in pieces {
        if told.version == stored {
            take(&mut width, &told.piece)?;
        }
    }
    Ok(width)
}

/// Whether no number of the one width is above that of the other.
pub(crate) fn is_within(found: &TableWidth, width: &TableWidth) -> bool {
    for (name, size) in &found.sizes {
        if *size > size_of(&width.sizes, name) {
            return false;
        }
    }
    found.pieces <= width.pieces && found.atoms <= width.atoms && found.cond <= width.cond
}

// A number, and beside it that of the width.
fn write_part(word: &[u8], found: u64, most: u64, text: &mut Vec<u8>) -> Result<(), NoMemory> {
    text.extend_from_slice(word)?;
    text.push(b' ')?;
    write_number(found, text)?;
    text.extend_from_slice(b" of ")?;
    write_number(most, text)
}

/// Writes what the pieces have beside what the width of the table with these columns says.
pub(crate) fn write_beside(
    found: &TableWidth,
    width: &TableWidth,
    columns: &[(Name, ColType)],
    text: &mut Vec<u8>,
) -> Result<(), NoMemory> {
    write_part(b"pieces", found.pieces, width.pieces, text)?;
    write_part(b", atoms", found.atoms, width.atoms, text)?;
    write_part(b", condition", found.cond, width.cond, text)?;
    for (name, _) in columns {
        text.extend_from_slice(b", ")?;
        let nodes = size_of(&found.sizes, name);
        write_part(name.bytes(), nodes, size_of(&width.sizes, name), text)?;
    }
    Ok(())
}
