ghost use Rattle.std.specs.Prelude.{◌≡◌, ◌↔◌, ℕ, true, List};
ghost use Rattle.prima_base.specs.declared.value.Value.{Value as OneValue};
ghost use Rattle.cond_expr.specs.Trees.{Tree, Test, fill, fill_test, Within};
ghost use Rattle.cond_expr.specs.Values.{over, value, truth};
ghost use Rattle.piece_ir_spec.specs.Pieces.{PlainPiece};
ghost use Rattle.piece_ir.specs.Sameness.{same_pieces};
ghost use Rattle.piece_ir.specs.Substituting.{IsOwn, put_column, with_value};

/// To substitute an expression for a column of an atom is to put its value there: over the cells of
/// atoms a tree in which it stands for the column has what the tree has where the column holds the
/// value of the expression over the atom's row.
pub fn substitution_puts_a_value()
    ensures value { (at : ℕ → List ℕ → OneValue) → (i : ℕ) → (c : List ℕ) → (e : Tree) → (t : Tree)
        → Within IsOwn e
        → value (over at) (fill (put_column i c e) t) ≡ value (over (with_value at i c e)) t }
    ensures truth { (at : ℕ → List ℕ → OneValue) → (i : ℕ) → (c : List ℕ) → (e : Tree) → (d : Test)
        → Within IsOwn e
        → truth (over at) (fill_test (put_column i c e) d) ≡ truth (over (with_value at i c e)) d }
{}

/// Pieces are told to be one by one the same just where they are equal.
pub fn the_same_pieces_are_equal()
    ensures { (ps : List PlainPiece) → (qs : List PlainPiece) → same_pieces ps qs ≡ true ↔ ps ≡ qs }
{}
