ghost use Rattle.std.specs.Prelude.{◌≡◌, Bool, true, false, map, Some};
ghost use Rattle.std.specs.List.{list_any};
ghost use Rattle.prima_base.specs.Columns.{IsValid};
ghost use Rattle.cond_expr.specs.Trees.{Test};
ghost use Rattle.cond_expr.specs.Seen.{test, tests_of};
ghost use Rattle.cond_expr.specs.Parts.{parts, all_parts, Bound, bound_of};
ghost use Rattle.cond_expr_dead.specs.Tried.{HaveValidLimits};

use cond_expr::Cond;

/// A test of the top-level parts of a condition.
pub(crate) trait PartTest {
    /// Which parts pass.
    ghost passes: { Self → Test → Bool };

    /// Whether the part passes. It takes no memory.
    fn passes(&self, part: &Cond) -> bool
        ensures value { result ≡ passes self.now (test part.now) }
        ensures valid { (b : Bound) → bound_of (test part.now) ≡ Some b → IsValid b.limit };
}

/// Whether a top-level part of the condition passes.
#[cycle(parts)]
#[tactic(auto, using(crate::proofs::PartLists::any_one, crate::proofs::PartLists::valid_one, crate::proofs::PartLists::any_more, crate::proofs::PartLists::any_none, crate::proofs::PartLists::valid_more, crate::proofs::PartLists::valid_none, cond_expr::proofs::SeenLaws::test_of_and, cond_expr::proofs::SeenLaws::test_of_or, cond_expr::proofs::SeenLaws::test_of_cmp))]
pub(crate) fn some_part<T: PartTest>(by: &T, cond: &Cond) -> bool
    ensures value { result ≡ list_any (T.passes by.now) (parts (test cond.now)) }
    ensures valid { result ≡ false → HaveValidLimits (parts (test cond.now)) }
{
    match cond {
        Cond::And(members) => some_part_of(by, members),
        Cond::False | Cond::True | Cond::Cmp(_, _, _) | Cond::Or(_) | Cond::Not(_) => {
            by.passes(cond)
        }
    }
}

/// Whether a top-level part of one of the members passes.
#[cycle(parts)]
#[tactic(auto, using(crate::proofs::PartLists::any_one, crate::proofs::PartLists::valid_one, crate::proofs::PartLists::any_more, crate::proofs::PartLists::any_none, crate::proofs::PartLists::valid_more, crate::proofs::PartLists::valid_none, cond_expr::proofs::SeenLaws::test_of_and, cond_expr::proofs::SeenLaws::test_of_or, cond_expr::proofs::SeenLaws::test_of_cmp))]
pub(crate) fn some_part_of<T: PartTest>(by: &T, members: &[Cond]) -> bool
    ensures value { result ≡ list_any (T.passes by.now)
        (all_parts (tests_of (map test members.now))) }
    ensures valid { result ≡ false → HaveValidLimits (all_parts (tests_of (map test members.now))) }
{
    for member in members {
        if some_part(by, member) {
            return true;
        }
    }
    false
}
