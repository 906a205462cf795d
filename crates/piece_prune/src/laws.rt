ghost use Rattle.std.specs.Prelude.{◌≡◌, ℕ, List, [], true, slice_index_or};
ghost use Rattle.prima_base.specs.Columns.{Column};
ghost use Rattle.schema_catalog.specs.Tables.{Tables};
ghost use Rattle.schema_catalog.specs.Databases.{Database};
ghost use Rattle.cond_expr.specs.Trees.{Test};
ghost use Rattle.cond_expr.specs.Kinds.{is_typed};
ghost use Rattle.smo_ops_spec.specs.OneRow.{own_kinds};
ghost use Rattle.smo_ops_spec.specs.ValidValues.{IsValidDatabase};
ghost use Rattle.cond_expr.specs.AtomColumns.{kinds_of_atoms};
ghost use Rattle.plain_answers_spec.specs.Pushing.{pushed_cond};
ghost use Rattle.piece_ir_spec.specs.Pieces.{PlainPiece, means, all_mean};
ghost use Rattle.piece_prune.specs.DeadPieces.{IsDeadPiece, LeavesLiving};

/// Over every database whose values are of their columns' types, in range and valid, a dead piece
/// means the empty relation.
pub fn a_dead_piece_means_nothing()
    ensures { (tables : Tables) → (db : Database) → (p : PlainPiece) → IsValidDatabase tables db
        → IsDeadPiece tables p → means tables db p ≡ [] }
{}

/// So the pieces that live mean what all of them mean.
pub fn living_pieces_mean_the_same()
    ensures { (tables : Tables) → (db : Database) → (ps : List PlainPiece)
        → (living : List PlainPiece) → IsValidDatabase tables db
        → LeavesLiving tables ps living → all_mean tables db living ≡ all_mean tables db ps }
{}

/// The condition that is pushed to an atom has a type over the atom's own columns, where the whole
/// condition has one over those of all atoms.
pub fn pushed_conditions_have_types()
    ensures { (columns : List (List Column)) → (i : ℕ) → (cond : Test)
        → is_typed (kinds_of_atoms columns) cond ≡ true
        → is_typed (own_kinds (slice_index_or columns i [])) (pushed_cond i cond) ≡ true }
{}
