ghost use Rattle.std.specs.Prelude.{◌≡◌, ◌↔◌, true, false, not, IsTrue, Some, map};
ghost use Rattle.prima_base.specs.Columns.{IsValid};
ghost use Rattle.cond_expr.specs.Seen.{test, tests_of};
ghost use Rattle.cond_expr.specs.Kinds.{Kinds, is_typed, value_kind};
ghost use Rattle.cond_expr.specs.Parts.{parts, all_parts, Bound, bound_of, IsDead};
ghost use Rattle.cond_expr_dead.specs.Tried.{is_never, one_is_let, is_killed, HaveValidLimits};
ghost use Rattle.cond_expr_dead.specs.Earlier.{parts_before, kills_first, some_kills};

use crate::bound::{ColumnBound, bound_of};
use crate::column::{ColumnOf, one_is_let, stands_before};
use crate::earlier::Before;
use cond_expr::{Cond, value_kind};

// Whether it is FALSE.
#[tactic(auto, using(cond_expr::proofs::SeenLaws::test_of_and, cond_expr::proofs::SeenLaws::test_of_or, cond_expr::proofs::SeenLaws::test_of_cmp))]
fn is_never(part: &Cond) -> bool
    ensures { result ≡ is_never (test part.now) }
{
    match part {
        Cond::False => true,
        Cond::True | Cond::Cmp(_, _, _) | Cond::And(_) | Cond::Or(_) | Cond::Not(_) => false,
    }
}

// Whether the column of a comparison is left none of the values that are tried.
fn empties(whole: &Cond, bound: ColumnBound<'_>) -> bool
    ensures { result ≡ not (one_is_let bound.entry.atom bound.entry.name.now
        (value_kind bound.entry.limit.now) (parts (test whole.now))) }
{
    let column = ColumnOf {
        atom: bound.atom,
        name: bound.name,
    };
    !one_is_let(whole, column, value_kind(bound.limit))
}

// Whether the part is FALSE, or the first of its column, and the column is left none.
#[tactic(auto, using(crate::proofs::PartLists::valid_limit))]
fn kills(part: &Cond, before: &Before<'_>, whole: &Cond) -> bool
    ensures value { result ≡ kills_first (parts (test whole.now)) (parts_before before.now)
        (test part.now) }
    ensures valid { (b : Bound) → bound_of (test part.now) ≡ Some b → IsValid b.limit }
{
    let never = is_never(part);
    match bound_of(part) {
        Some(bound) => never || (!stands_before(before, &bound) && empties(whole, bound)),
        None => never,
    }
}

// Whether a part of the condition kills the whole, where those parts stand before it.
#[cycle(parts)]
#[tactic(auto, using(crate::proofs::PartLists::valid_one, crate::proofs::PartLists::valid_none, cond_expr::proofs::SeenLaws::test_of_and, cond_expr::proofs::SeenLaws::test_of_or, cond_expr::proofs::SeenLaws::test_of_cmp))]
fn some_kills<'a>(cond: &'a Cond, before: &'a Before<'a>, whole: &Cond) -> bool
    ensures value { result ≡ some_kills (parts (test whole.now)) (parts_before before.now)
        (parts (test cond.now)) }
    ensures valid { result ≡ false → HaveValidLimits (parts (test cond.now)) }
{
    match cond {
        Cond::And(members) => some_kills_of(members, before, whole),
        Cond::False | Cond::True | Cond::Cmp(_, _, _) | Cond::Or(_) | Cond::Not(_) => {
            kills(cond, before, whole)
        }
    }
}

// The same of the members of an AND.
#[cycle(parts)]
#[tactic(auto, using(crate::proofs::PartLists::valid_one, crate::proofs::PartLists::valid_none, cond_expr::proofs::SeenLaws::test_of_and, cond_expr::proofs::SeenLaws::test_of_or, cond_expr::proofs::SeenLaws::test_of_cmp))]
fn some_kills_of<'a>(members: &'a [Cond], before: &'a Before<'a>, whole: &Cond) -> bool
    ensures value { result ≡ some_kills (parts (test whole.now)) (parts_before before.now)
        (all_parts (tests_of (map test members.now))) }
    ensures valid { result ≡ false → HaveValidLimits (all_parts (tests_of (map test members.now))) }
{
    for (index, member) in members.iter().enumerate() {
        if some_kills(member, &Before::Members(before, &members[..index]), whole) {
            return true;
        }
    }
    false
}

/// Whether a condition is dead: a top-level part of it is FALSE, or for some column no value of its
/// type meets all the top-level parts that compare just this column with a constant, on either
/// side. Exactly, for a condition that has a type. It takes no memory.
///
/// Of the values of the type, the least and those at which a part begins to hold are enough to try:
/// up to the next of these nothing begins to hold. Which conditions these few values find dead is
/// told for every condition. Each column is looked at once: the least value is tried, the greatest
/// of its lower bounds, and the value after each one that `<>` excludes.
pub fn is_dead(cond: &Cond) -> bool
    ensures told { result ≡ is_killed (test cond.now) }
    ensures exact { (of : Kinds) → is_typed of (test cond.now) ≡ true
        → IsTrue result ↔ IsDead of (test cond.now) }
{
    some_kills(cond, &Before::Nothing, cond)
}
