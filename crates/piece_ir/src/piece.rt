ghost use Rattle.std.specs.Prelude.{◌≡◌, IfOk};
ghost use Rattle.piece_ir.specs.Shown.{shown_pieces};

use crate::name::copy_names;
use cond_expr::{Cond, Expr};
use prima_base::{Name, NoMemory};
use smo_ops_types::copy_sets;
use std::alloc::Global;

/// A query over the tables of one version, as rewriting takes it from version to version (PRISM
/// 2008, PRIMA 2008).
///
/// It means, over a database of that version, for each choice of one row per atom that meets the
/// condition, the row of the outputs. Each reference is to an atom.
#[derive(Drop)]
pub struct Piece {
    /// The tables, by their names. A table may be several atoms.
    pub atoms: Vec<Name>,
    /// Which choices are taken.
    pub cond: Cond,
    /// The outputs, in ascending order of their names.
    pub outs: Vec<(Name, Expr)>,
}

impl Piece {
    ghost use Rattle.std.specs.Prelude.{◌≡◌, IfOk};
    ghost use Rattle.piece_ir.specs.Shown.{piece_of};

    /// An equal piece. The one error is `NoMemory`, where memory runs out.
    pub fn copy(&self, alloc: Global) -> Result<Piece, NoMemory>
        ensures { IfOk result (λ p. piece_of p ≡ piece_of self.now) }
    {
        Ok(Piece {
            atoms: copy_names(alloc, &self.atoms)?,
            cond: self.cond.copy(alloc)?,
            outs: copy_sets(alloc, &self.outs)?,
        })
    }
}

/// Equal pieces, in their order. The one error is `NoMemory`, where memory runs out.
pub fn copy_pieces(alloc: Global, pieces: &[Piece]) -> Result<Vec<Piece>, NoMemory>
    ensures { IfOk result (λ v. shown_pieces v.items ≡ shown_pieces pieces.now) }
{
    let mut copied = Vec::with_capacity(alloc, pieces.len())?;
    for piece in pieces {
        copied.push(piece.copy(alloc)?)?;
    }
    Ok(copied)
}
