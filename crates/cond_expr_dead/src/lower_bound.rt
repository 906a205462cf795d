ghost use Rattle.std.specs.Prelude.{◌≡◌, map};
ghost use Rattle.prima_base.specs.Columns.{IsValid};
ghost use Rattle.std.specs.Prelude.{Some};
ghost use Rattle.cond_expr.specs.Seen.{test, tests_of};
ghost use Rattle.cond_expr.specs.Parts.{parts, all_parts, Bound, bound_of};
ghost use Rattle.cond_expr_dead.specs.Shown.{tried_values};
ghost use Rattle.cond_expr_dead.specs.Tried.{HaveValidLimits};
ghost use Rattle.cond_expr_dead.specs.LowerBounds.{bottom, is_reached, higher, raised, highest};

use crate::bound::{ColumnBound, bound_of};
use crate::column::{ColumnOf, is_on};
use crate::trial::{Tried, compare, next, same};
use cond_expr::{CmpOp, Cond};
use prima_base::Value;
use std::cmp::Ordering;

/// The least value of which a comparison holds, where it is a lower bound and there is one.
fn bottom(op: CmpOp, limit: &Value) -> Option<Tried<'_>>
    ensures { tried_values result ≡ bottom op limit.now }
{
    match op {
        CmpOp::Eq | CmpOp::Ge => Some(same(limit)),
        CmpOp::Gt => next(limit),
        CmpOp::Ne | CmpOp::Lt | CmpOp::Le => None,
    }
}

/// Whether a value that compares so with the constant is not below that least value.
fn is_reached(op: CmpOp, order: Ordering) -> bool
    ensures { result ≡ is_reached op order }
{
    match op {
        CmpOp::Eq | CmpOp::Ge => order != Ordering::Less,
        CmpOp::Gt => order == Ordering::Greater,
        CmpOp::Ne | CmpOp::Lt | CmpOp::Le => true,
    }
}

/// The greater of the two: the least value of a comparison, and another.
fn higher<'a>(bound: ColumnBound<'a>, top: Option<Tried<'a>>) -> Option<Tried<'a>>
    ensures { tried_values result ≡ higher bound.entry.op bound.entry.limit.now
        (bottom bound.entry.op bound.entry.limit.now) (tried_values top.entry) }
{
    match (bottom(bound.op, bound.limit), top) {
        (Some(value), Some(highest)) => {
            if is_reached(bound.op, compare(&highest, bound.limit)) {
                return Some(highest);
            }
            Some(value)
        }
        (Some(value), None) => Some(value),
        (None, _) => top,
    }
}

/// The greater of the two: the least value of a part, where it is a lower bound of the column, and
/// another.
#[tactic(auto, using(crate::proofs::PartLists::valid_limit))]
fn raised<'a>(part: &'a Cond, column: ColumnOf<'_>, top: Option<Tried<'a>>) -> Option<Tried<'a>>
    ensures value { tried_values result ≡ raised column.entry.atom column.entry.name.now
        (bound_of (test part.now)) (tried_values top.entry) }
    ensures valid { (b : Bound) → bound_of (test part.now) ≡ Some b → IsValid b.limit }
{
    match bound_of(part) {
        Some(bound) => {
            if is_on(&bound, &column) {
                return higher(bound, top);
            }
            top
        }
        None => top,
    }
}

/// The greatest of the least values of the column's lower bounds, and another.
#[cycle(parts)]
#[tactic(auto, using(crate::proofs::PartLists::valid_one, crate::proofs::PartLists::valid_none, cond_expr::proofs::SeenLaws::test_of_and, cond_expr::proofs::SeenLaws::test_of_or, cond_expr::proofs::SeenLaws::test_of_cmp))]
pub(crate) fn highest<'a>(
    cond: &'a Cond,
    column: ColumnOf<'_>,
    top: Option<Tried<'a>>,
) -> Option<Tried<'a>>
    ensures value { tried_values result ≡ highest column.entry.atom column.entry.name.now
        (parts (test cond.now)) (tried_values top.entry) }
    ensures valid { HaveValidLimits (parts (test cond.now)) }
{
    match cond {
        Cond::And(members) => highest_of(members, column, top),
        Cond::False | Cond::True | Cond::Cmp(_, _, _) | Cond::Or(_) | Cond::Not(_) => {
            raised(cond, column, top)
        }
    }
}

/// The same of each of the members of an AND.
#[cycle(parts)]
#[tactic(auto, using(crate::proofs::PartLists::valid_one, crate::proofs::PartLists::valid_none, cond_expr::proofs::SeenLaws::test_of_and, cond_expr::proofs::SeenLaws::test_of_or, cond_expr::proofs::SeenLaws::test_of_cmp))]
fn highest_of<'a>(
    members: &'a [Cond],
    column: ColumnOf<'_>,
    top: Option<Tried<'a>>,
) -> Option<Tried<'a>>
    ensures value { tried_values result ≡ highest column.entry.atom column.entry.name.now
        (all_parts (tests_of (map test members.now))) (tried_values top.entry) }
    ensures valid { HaveValidLimits (all_parts (tests_of (map test members.now))) }
{
    let mut so_far = top;
    for member in members {
        so_far = highest(member, column, so_far);
    }
    so_far
}
