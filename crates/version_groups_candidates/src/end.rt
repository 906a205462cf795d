//! Where a condition ends the values that a column can have.

ghost use Rattle.std.specs.Prelude.{◌≡◌, ◌++◌, not, map, None, [], ◌∷◌, IfOk};
ghost use Rattle.cond_expr.specs.Seen.{test, tests_of};
ghost use Rattle.cond_expr.specs.Parts.{parts, all_parts};
ghost use Rattle.version_groups_candidates.specs.Ranges.{cut_at, with_lead, is_low, end_of};
ghost use Rattle.version_groups_candidates.specs.Ranges.{leaves_fewer};
ghost use Rattle.version_groups_candidates.specs.Ranges.{tighter, tightest, bounded, without_it};
ghost use Rattle.version_groups_candidates.specs.Ranges.{with_it};

use cond_expr::{CmpOp, Column, Cond, pinned};
use history_store::Cut;
use prima_base::{NoMemory, Value};
use std::cmp::Ordering;
use std::marker::Model;

/// One of the two sides of a range.
#[derive(Clone, Copy)]
pub(crate) enum Side {
    /// Where it begins.
    Low,
    /// Where it ends.
    High,
}

/// An end of a range of a column: before the rows with this constant, or after them.
#[derive(Drop)]
pub(crate) struct End<'c> {
    value: &'c Value,
    after: bool,
}

impl<'c> Model for End<'c> {
    ghost use Rattle.version_groups_candidates.specs.Ranges.{End as PlainEnd};

    ghost Value = { PlainEnd };

    ghost view = { λ e. record { value = e.value.now; after = e.after } };
}

// Whether an end whose constant compares so with another's leaves no more rows than that one.
fn leaves_fewer(side: Side, order: Ordering, after: bool) -> bool
    ensures { result ≡ leaves_fewer side order after }
{
    match (side, order) {
        (Side::Low, Ordering::Less) | (Side::High, Ordering::Greater) => false,
        (Side::Low, Ordering::Equal) => after,
        (Side::High, Ordering::Equal) => !after,
        (Side::Low, Ordering::Greater) | (Side::High, Ordering::Less) => true,
    }
}

// That of the two ends which leaves fewer rows.
fn tighter<'c>(side: Side, one: Option<End<'c>>, other: Option<End<'c>>) -> Option<End<'c>>
    ensures { result ≡ tighter side one.entry other.entry }
{
    let Some(a) = one else {
        return other;
    };
    let Some(b) = other else {
        return Some(a);
    };
    if leaves_fewer(side, a.value.cmp(b.value), a.after) {
        return Some(a);
    }
    Some(b)
}

// The comparison that leaves its constant out at this side.
fn without_it(side: Side) -> CmpOp
    ensures { result ≡ without_it side }
{
    match side {
        Side::Low => CmpOp::Gt,
        Side::High => CmpOp::Lt,
    }
}

// The comparison that has its constant too.
fn with_it(side: Side) -> CmpOp
    ensures { result ≡ with_it side }
{
    match side {
        Side::Low => CmpOp::Ge,
        Side::High => CmpOp::Le,
    }
}

fn is_low(side: Side) -> bool
    ensures { result ≡ is_low side }
{
    match side {
        Side::Low => true,
        Side::High => false,
    }
}

// Where the part ends the column's values at this side.
fn end_of<'c>(side: Side, part: &'c Cond, column: &Column) -> Option<End<'c>>
    requires { parts (test part.now) ≡ test part.now ∷ [] }
    ensures { result ≡ end_of side column.now (test part.now) }
{
    if let Some(value) = pinned(part, without_it(side), column) {
        return Some(End {
            value,
            after: is_low(side),
        });
    }
    match pinned(part, with_it(side), column) {
        Some(value) => Some(End {
            value,
            after: !is_low(side),
        }),
        None => None,
    }
}

// The tightest of the ends by the parts of the condition and of this one.
#[cycle(tightest)]
#[tactic(auto, using(cond_expr::proofs::SeenLaws::test_of_and, cond_expr::proofs::SeenLaws::test_of_or, cond_expr::proofs::SeenLaws::test_of_cmp))]
fn tightest_of<'c>(
    side: Side,
    cond: &'c Cond,
    column: &Column,
    end: Option<End<'c>>,
) -> Option<End<'c>>
    ensures { result ≡ tightest side column.now (parts (test cond.now)) end.entry }
{
    match cond {
        Cond::Cmp(_, _, _) => tighter(side, end_of(side, cond, column), end),
        Cond::And(members) => tightest_of_all(side, members, column, end),
        Cond::False | Cond::True | Cond::Or(_) | Cond::Not(_) => end,
    }
}

#[cycle(tightest)]
fn tightest_of_all<'c>(
    side: Side,
    members: &'c [Cond],
    column: &Column,
    end: Option<End<'c>>,
) -> Option<End<'c>>
    ensures { result ≡ tightest side column.now (all_parts (tests_of (map test members.now)))
        end.entry }
{
    let mut tightest = end;
    let mut k = members.len();
    'members: while k > 0 {
        k -= 1;
        tightest = tightest_of(side, &members[k], column, tightest);
    }
    tightest
}

// The values, and this one after them.
fn with_value(values: Vec<Value>, value: &Value) -> Result<Vec<Value>, NoMemory>
    ensures { IfOk result (λ v. v.items ≡ values.items ++ value.now ∷ []) }
{
    let mut values = values;
    values.push(value.copy()?)?;
    Ok(values)
}

/// The cut after these values where the condition ends the column's values at this side. The one
/// error is `NoMemory`, where memory runs out.
pub(crate) fn cut_at_end(
    side: Side,
    values: Vec<Value>,
    cond: &Cond,
    column: &Column,
) -> Result<Cut, NoMemory>
    ensures { IfOk result (λ c. c ≡ with_lead values.items
        (bounded (tightest side column.now (parts (test cond.now)) None) (not (is_low side)))) }
{
    let Some(end) = tightest_of(side, cond, column, None) else {
        return Ok(cut_of(values, !is_low(side)));
    };
    Ok(cut_of(with_value(values, end.value)?, end.after))
}

// The cut before the rows that begin with these values, or after them.
fn cut_of(values: Vec<Value>, after: bool) -> Cut
    ensures { result ≡ cut_at values.items after }
{
    if after {
        return Cut::after(values);
    }
    Cut::before(values)
}
