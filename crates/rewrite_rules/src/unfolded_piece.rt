ghost use Rattle.std.specs.Prelude.{◌≡◌, None, IfOk};
ghost use Rattle.smo_ops_types.specs.Operators.{operator_of};
ghost use Rattle.smo_ops_spec.specs.After.{op_fault, schema_after, IsValid};
ghost use Rattle.piece_ir_spec.specs.Typed.{IsTyped};
ghost use Rattle.piece_ir_spec.specs.Rules.{KeepsMeaning};
ghost use Rattle.piece_ir.specs.Shown.{piece_of, shown_pieces};
ghost use Rattle.piece_ir_spec.specs.OperatorViews.{operator_views};
ghost use Rattle.rewrite_rules_book.specs.LivingPieces.{AllLiving};
ghost use Rattle.rewrite_rules.specs.LivingUnfoldings.{living_by_views};

use crate::made_table::made_tables;
use piece_ir::{Piece, unfold_by};
use piece_prune::living;
use prima_base::NoMemory;
use schema_catalog::Schema;
use smo_ops_types::Op;
use std::alloc::Global;

/// The piece, unfolded by the views of the tables that the operator makes, without the pieces that
/// are found dead: what each rule answers. What is made is asked of the operator itself, whichever
/// rule answers.
pub(crate) fn unfolded(
    alloc: Global,
    op: &Op,
    before: &Schema,
    piece: &Piece,
) -> Result<Vec<Piece>, NoMemory>
    requires valid { IsValid before.now }
    requires accepted { op_fault before.now (operator_of op.now) ≡ None }
    requires typed { IsTyped (schema_after before.now (operator_of op.now)) (piece_of piece.now) }
    ensures is { IfOk result (λ news. shown_pieces news.items
        ≡ living_by_views operator_views (operator_of op.now) before.now (piece_of piece.now)) }
    ensures keeps { IfOk result (λ news. KeepsMeaning before.now (operator_of op.now)
        (piece_of piece.now) (shown_pieces news.items)) }
    ensures living { IfOk result (λ news. AllLiving (shown_pieces news.items)) }
{
    let made = made_tables(alloc, op, before)?;
    let news = unfold_by(alloc, &made, piece)?;
    Ok(living(news, before))
}
