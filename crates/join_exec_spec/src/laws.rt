ghost use Rattle.std.specs.Prelude.{◌≡◌, ◌∷◌, ◌++◌, ℕ, Bool, List};
ghost use Rattle.std.specs.List.{filter};
ghost use Rattle.relations_spec.specs.Timed.{Entry, held_at};
ghost use Rattle.prima_base.specs.declared.value.Value.{Value};
ghost use Rattle.cond_expr.specs.Trees.{Tree, Test};
ghost use Rattle.cond_expr.specs.Parts.{parts};
ghost use Rattle.join_exec_spec.specs.Blocks.{Block, answered, IsBlock, IsPruned, Apart, AreBlocks};
ghost use Rattle.join_exec_spec.specs.Choosing.{pairs, extend_choices, extended_where};
ghost use Rattle.join_exec_spec.specs.Choosing.{complete_choices, Wide};
ghost use Rattle.join_exec_spec.specs.Choosing.{IsSound};

/// Pairs hold at a moment the choices that hold then, each with the rows after that hold then and
/// are kept beside it.
pub fn what_pairs_hold()
    ensures { (keep : List Value → List Value → Bool) → (m : ℕ)
        → (choices : List (Entry (List Value))) → (rows : List (Entry (List Value)))
        → held_at (pairs keep choices rows) m
        ≡ extended_where keep (held_at choices m) (held_at rows m) }
{}

/// Of what a condition keeps of all completed choices nothing is lost where only that is left out
/// early which leads to nothing that passes, whatever comes after.
pub fn what_is_hopeless_is_left_out()
    ensures { (met : List Value → Bool) → (n : ℕ) → (w : ℕ)
        → (keep : List Value → List Value → Bool) → IsSound met n w keep
        → (choices : List (List Value)) → (rows : List (List Value))
        → (rest : List (List (List Value))) → Wide n choices → Wide w rows
        → filter met (complete_choices (extended_where keep choices rows) rest)
        ≡ filter met (complete_choices (extend_choices choices rows) rest) }
{}

/// Of what is answered nothing is lost where an atom is left without the rows that lead to nothing
/// that meets all parts of the condition, whatever comes after.
pub fn what_atoms_answer_without_hopeless_rows()
    ensures { (outs : List Tree) → (cond : Test) → (before : List Block) → (was : Block)
        → (is : Block) → (after : List Block)
        → AreBlocks before → IsBlock was → Apart was.number before → IsPruned (parts cond) was is
        → answered outs cond (before ++ was ∷ after) ≡ answered outs cond (before ++ is ∷ after) }
{}
