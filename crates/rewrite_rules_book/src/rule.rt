ghost use Rattle.std.specs.Prelude.{◌≡◌, None, IfOk};
ghost use Rattle.prima_base.specs.declared.refusal.OpKind.{OpKind as Kind};
ghost use Rattle.smo_ops_types.specs.Operators.{operator_of};
ghost use Rattle.smo_ops_spec.specs.OperatorKinds.{operator_kind};
ghost use Rattle.smo_ops_spec.specs.After.{op_fault, schema_after, IsValid};
ghost use Rattle.piece_ir_spec.specs.Typed.{IsTyped};
ghost use Rattle.piece_ir_spec.specs.Rules.{Book, IsValidRule, KeepsMeaning};
ghost use Rattle.piece_prune.specs.Shown.{piece_of, shown_pieces};
ghost use Rattle.rewrite_rules_book.specs.LivingPieces.{AllLiving};

use piece_prune::Piece;
use prima_base::{NoMemory, OpKind};
use schema_catalog::Schema;
use smo_ops_types::Op;
use std::alloc::Global;

/// A rule that takes pieces through the operators of one kind: from the tables after an operator to
/// those before it (PRISM 2008). Its law says what the pieces that it answers have in common with
/// the piece that it is given.
pub trait Rule: Drop {
    /// The kind of operator that it handles.
    ghost handles: { Self → Kind };

    /// What it answers: one list of pieces to an operator, the tables before it, and a piece over
    /// those after it.
    ghost answers: { Self → Book };

    /// The kind of operator that it handles, of which it is a valid rule.
    fn kind(&self) -> OpKind
        ensures is { result ≡ handles self.now }
        ensures valid { IsValidRule (handles self.now) (answers self.now) };

    /// Its answer, none of which is dead: whoever has it need not ask again which pieces live. The
    /// operator is of its kind and is accepted on the valid schema before it, and the piece is
    /// well-typed over the schema after it. The one error is `NoMemory`, where memory runs out.
    fn rewrite(
        &self,
        alloc: Global,
        op: &Op,
        before: &Schema,
        piece: &Piece,
    ) -> Result<Vec<Piece>, NoMemory>
        requires kind { operator_kind (operator_of op.now) ≡ handles self.now }
        requires valid { IsValid before.now }
        requires accepted { op_fault before.now (operator_of op.now) ≡ None }
        requires typed { IsTyped (schema_after before.now (operator_of op.now))
            (piece_of piece.now) }
        ensures is { IfOk result (λ news. shown_pieces news.items
            ≡ answers self.now (operator_of op.now) before.now (piece_of piece.now)) }
        ensures keeps { IfOk result (λ news. KeepsMeaning before.now (operator_of op.now)
            (piece_of piece.now) (shown_pieces news.items)) }
        ensures living { IfOk result (λ news. AllLiving (shown_pieces news.items)) };
}

/// A boxed rule is the rule in its box.
impl Rule for Box<dyn Rule> {
    ghost handles = { λ b. (Rule-box b).handles b.value };

    ghost answers = { λ b. (Rule-box b).answers b.value };

    fn kind(&self) -> OpKind {
        (**self).kind()
    }

    fn rewrite(
        &self,
        alloc: Global,
        op: &Op,
        before: &Schema,
        piece: &Piece,
    ) -> Result<Vec<Piece>, NoMemory> {
        (**self).rewrite(alloc, op, before, piece)
    }
}
