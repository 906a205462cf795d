ghost use Rattle.std.specs.Prelude.{◌≡◌, ℕ, List, false};
ghost use Rattle.cond_expr.specs.declared.expr.Whose.{Whose as OneWhose};
ghost use Rattle.cond_expr.specs.Trees.{Test};
ghost use Rattle.cond_expr.specs.Values.{Cells, truth};
ghost use Rattle.cond_expr.specs.Kinds.{Kinds, Fits};
ghost use Rattle.cond_expr.specs.Parts.{IsDead};
ghost use Rattle.prima_base.specs.Columns.{IsValid};

/// A dead condition holds of no values that are of the references' types, in range and valid.
pub fn a_dead_condition_holds_of_no_values()
    ensures { (of : Kinds) → (at : Cells) → (c : Test) → Fits of at
        → ((w : OneWhose) → (n : List ℕ) → IsValid (at w n))
        → IsDead of c → truth at c ≡ false }
{}
