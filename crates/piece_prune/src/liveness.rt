ghost use Rattle.std.specs.Prelude.{◌≡◌, ◌↔◌, not, [], IsTrue};
ghost use Rattle.std.specs.List.{filter};
ghost use Rattle.schema_catalog.specs.Databases.{Database};
ghost use Rattle.smo_ops_spec.specs.ValidValues.{IsValidDatabase};
ghost use Rattle.piece_ir_spec.specs.Pieces.{means, all_mean};
ghost use Rattle.piece_ir_spec.specs.Typed.{IsTyped, AllTyped};
ghost use Rattle.piece_ir.specs.Shown.{piece_of, shown_pieces};
ghost use Rattle.piece_prune.specs.DeadPieces.{IsDeadPiece, LeavesLiving, Decides, lives};

use cond_expr_dead::is_dead as is_dead_condition;
use piece_ir::Piece;
use schema_catalog::Schema;

/// Whether a piece, well-typed over the schema, is dead: a top-level part of its condition is
/// FALSE, or for some column of some atom no value of the column's type meets all the top-level
/// parts that compare just this column with a constant. Over every database of the schema whose
/// values are of their columns' types, in range and valid, a dead piece means the empty relation.
/// It takes no memory.
pub fn is_dead(piece: &Piece, before: &Schema) -> bool
    requires { IsTyped before.now (piece_of piece.now) }
    ensures exact { IsTrue result ↔ IsDeadPiece before.now (piece_of piece.now) }
    ensures told { lives (piece_of piece.now) ≡ not result }
    ensures means { IsTrue result → (db : Database) → IsValidDatabase before.now db
        → means before.now db (piece_of piece.now) ≡ [] }
{
    // The constants of a well-typed piece tell the types of its columns.
    let _typed_over = before;
    is_dead_condition(&piece.cond)
}

// Whether a piece lives, over each schema over which it is well-typed.
fn lives(piece: &Piece) -> bool
    ensures decides { Decides result (piece_of piece.now) }
    ensures told { result ≡ lives (piece_of piece.now) }
{
    !is_dead_condition(&piece.cond)
}

// The pieces that live, in their order.
fn left(pieces: Vec<Piece>, before: &Schema) -> Vec<Piece>
    requires { AllTyped before.now (shown_pieces pieces.items) }
    ensures living { LeavesLiving before.now (shown_pieces pieces.items) (shown_pieces result.items) }
    ensures told { shown_pieces result.items ≡ filter lives (shown_pieces pieces.items) }
{
    let _typed_over = before;
    let mut left = pieces;
    left.retain(lives);
    left
}

/// The pieces that are not dead, in their order. Each is well-typed over the schema. Over every
/// database of the schema whose values are of their columns' types, in range and valid, they mean
/// the union that all of them mean. It takes no memory.
pub fn living(pieces: Vec<Piece>, before: &Schema) -> Vec<Piece>
    requires { AllTyped before.now (shown_pieces pieces.items) }
    ensures living { LeavesLiving before.now (shown_pieces pieces.items) (shown_pieces result.items) }
    ensures told { shown_pieces result.items ≡ filter lives (shown_pieces pieces.items) }
    ensures means { (db : Database) → IsValidDatabase before.now db
        → all_mean before.now db (shown_pieces result.items)
        ≡ all_mean before.now db (shown_pieces pieces.items) }
{
    left(pieces, before)
}
