ghost use Rattle.std.specs.Prelude.{◌≡◌, ◌↔◌, IfOk, IsTrue};
ghost use Rattle.schema_catalog.specs.Tables.{Tables};
ghost use Rattle.schema_catalog.specs.Databases.{Database};
ghost use Rattle.cond_expr.specs.Seen.{tree};
ghost use Rattle.cond_expr.specs.Trees.{Within};
ghost use Rattle.plain_answers_spec.specs.Naming.{IsNamed};
ghost use Rattle.piece_ir.specs.Shown.{piece_of};
ghost use Rattle.piece_ir_spec.specs.Pieces.{means};
ghost use Rattle.piece_ir.specs.Substituting.{substituted, names_column, piece_references};
ghost use Rattle.piece_ir.specs.Substituting.{IsOwn, means_with_value};

use crate::Piece;
use crate::atom_fill::PutColumn;
use crate::name::copy_names;
use crate::output::fill_outputs;
use crate::reference::{cond_names, outputs_name};
use cond_expr::{Expr, fill_cond};
use prima_base::{Name, NoMemory};
use std::alloc::Global;

// The piece in which the expression stands for the column.
fn substituted(
    alloc: Global,
    piece: &Piece,
    atom: u32,
    column: &Name,
    expr: &Expr,
) -> Result<Piece, NoMemory>
    ensures { IfOk result (λ p. piece_of p ≡ substituted (piece_of piece.now) atom column.now
        (tree expr.now)) }
{
    let by = PutColumn { atom, column, expr };
    Ok(Piece {
        atoms: copy_names(alloc, &piece.atoms)?,
        cond: fill_cond(alloc, &by, &piece.cond)?,
        outs: fill_outputs(alloc, &by, &piece.outs)?,
    })
}

/// The piece in which the expression stands for a column of an atom. The references of the
/// expression are to atom 0, and become references to that atom: over each database the piece
/// answers what the given one does where the column holds, in each row of the atom, the value of
/// the expression over that row. The one error is `NoMemory`, where memory runs out.
pub fn substitute(
    alloc: Global,
    piece: &Piece,
    atom: u32,
    column: &Name,
    expr: &Expr,
) -> Result<Piece, NoMemory>
    ensures is { IfOk result (λ p. piece_of p ≡ substituted (piece_of piece.now) atom column.now
        (tree expr.now)) }
    ensures means { IfOk result (λ p. (tables : Tables) → (db : Database)
        → Within IsOwn (tree expr.now)
        → means tables db (piece_of p)
        ≡ means_with_value tables db (piece_of piece.now) atom column.now (tree expr.now)) }
{
    let put = substituted(alloc, piece, atom, column, expr)?;
    Ok(put)
}

#[tactic(auto, using(crate::proofs::ReferenceLists::names_append))]
fn is_named(piece: &Piece, atom: u32, column: &Name) -> bool
    ensures { result ≡ names_column atom column.now (piece_references (piece_of piece.now)) }
{
    outputs_name(&piece.outs, atom, column) || cond_names(&piece.cond, atom, column)
}

/// Whether an output or the condition of the piece names this column of an atom. It takes no
/// memory.
#[tactic(auto, using(crate::proofs::ReferenceLists::named_just))]
pub fn needs(piece: &Piece, atom: u32, column: &Name) -> bool
    ensures { IsTrue result ↔ IsNamed atom (piece_references (piece_of piece.now)) column.now }
{
    is_named(piece, atom, column)
}
