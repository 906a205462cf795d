ghost use Rattle.std.specs.Prelude.{◌≡◌, not, Some, None};
ghost use Rattle.std.specs.List.{list_any};
ghost use Rattle.cond_expr.specs.Seen.{test};
ghost use Rattle.cond_expr.specs.Kinds.{same_type};
ghost use Rattle.cond_expr.specs.Parts.{parts, bound_of, lets, all_let, is_on};
ghost use Rattle.cond_expr_dead.specs.Shown.{tried_value, bound_shown};
ghost use Rattle.cond_expr_dead.specs.Tried.{is_let, offers, one_is_let, HaveValidLimits};
ghost use Rattle.cond_expr_dead.specs.LowerBounds.{highest, excludes};
ghost use Rattle.cond_expr_dead.specs.Earlier.{parts_before, is_alike, some_alike};

use crate::bound::{ColumnBound, bound_of};
use crate::earlier::{Before, some_before};
use crate::lower_bound::highest;
use crate::part::{PartTest, some_part};
use crate::trial::{Tried, compare, least, next};
use cond_expr::{CmpOp, Cond, decide, value_kind};
use prima_base::{ColType, Name};

/// A column of an atom.
#[derive(Clone, Copy)]
pub(crate) struct ColumnOf<'a> {
    pub atom: u32,
    pub name: &'a Name,
}

/// Whether the comparison is of the column.
pub(crate) fn is_on(bound: &ColumnBound<'_>, column: &ColumnOf<'_>) -> bool
    ensures { result ≡ is_on column.now.atom column.now.name.now (Some (bound_shown bound.now)) }
{
    bound.atom == column.atom && bound.name == column.name
}

/// Passes the parts that do not let the column have a value.
#[derive(Drop)]
struct Refuses<'a> {
    column: ColumnOf<'a>,
    tried: &'a Tried<'a>,
}

impl PartTest for Refuses<'_> {
    ghost passes = { λ r t. not (lets r.column.atom r.column.name.now
        (tried_value r.tried.now) t) };

    #[tactic(auto, using(crate::proofs::PartLists::refused, crate::proofs::PartLists::not_refused, crate::proofs::PartLists::valid_limit))]
    fn passes(&self, part: &Cond) -> bool {
        match bound_of(part) {
            Some(bound) => {
                is_on(&bound, &self.column) && !decide(bound.op, compare(self.tried, bound.limit))
            }
            None => false,
        }
    }
}

// Whether all parts let the column have the value.
#[tactic(auto, using(crate::proofs::PartLists::none_refuses))]
fn all_let(whole: &Cond, column: ColumnOf<'_>, tried: &Tried<'_>) -> bool
    ensures { result ≡ all_let column.entry.atom column.entry.name.now (parts (test whole.now))
        (tried_value tried.now) }
{
    !some_part(&Refuses { column, tried }, whole)
}

/// Passes the parts that exclude a value of the column, where the next one is let by all.
#[derive(Drop)]
struct Excludes<'a> {
    whole: &'a Cond,
    column: ColumnOf<'a>,
}

impl PartTest for Excludes<'_> {
    ghost passes = { λ x t. excludes x.column.atom x.column.name.now (parts (test x.whole.now))
        (bound_of t) };

    #[tactic(auto, using(crate::proofs::PartLists::valid_limit))]
    fn passes(&self, part: &Cond) -> bool {
        match bound_of(part) {
            Some(bound) => {
                if !is_on(&bound, &self.column) || bound.op != CmpOp::Ne {
                    return false;
                }
                match next(bound.limit) {
                    Some(tried) => all_let(self.whole, self.column, &tried),
                    None => false,
                }
            }
            None => false,
        }
    }
}

// Whether all parts let the column have the greatest value at which a lower bound begins.
fn highest_is_let(whole: &Cond, column: ColumnOf<'_>) -> bool
    ensures value { result ≡ is_let column.entry.atom column.entry.name.now
        (parts (test whole.now))
        (highest column.entry.atom column.entry.name.now (parts (test whole.now)) None) }
    ensures valid { HaveValidLimits (parts (test whole.now)) }
{
    match highest(whole, column, None) {
        Some(top) => all_let(whole, column, &top),
        None => false,
    }
}

// Whether all parts let the column have a value at which one of them begins to hold.
#[tactic(auto, using(crate::proofs::LowerBoundLaws::by_top, crate::proofs::LowerBoundLaws::by_excluded))]
fn beginning_is_let(whole: &Cond, column: ColumnOf<'_>) -> bool
    ensures { result ≡ list_any (λ t. offers column.entry.atom column.entry.name.now
        (parts (test whole.now)) (bound_of t)) (parts (test whole.now)) }
{
    highest_is_let(whole, column) || some_part(&Excludes { whole, column }, whole)
}

/// Whether all parts let the column have one of the values that are tried. Below the greatest of
/// its lower bounds none is let, and past it a value is only let where the one before is excluded.
pub(crate) fn one_is_let(whole: &Cond, column: ColumnOf<'_>, kind: ColType) -> bool
    ensures { result ≡ one_is_let column.entry.atom column.entry.name.now kind
        (parts (test whole.now)) }
{
    all_let(whole, column, &least(kind)) || beginning_is_let(whole, column)
}

/// Passes the parts that compare the column with a constant of the type.
#[derive(Drop)]
struct IsAlike<'a> {
    column: ColumnOf<'a>,
    kind: ColType,
}

impl PartTest for IsAlike<'_> {
    ghost passes = { λ a t. is_alike a.column.atom a.column.name.now a.kind (bound_of t) };

    #[tactic(auto, using(crate::proofs::PartLists::valid_limit))]
    fn passes(&self, part: &Cond) -> bool {
        match bound_of(part) {
            Some(bound) => is_on(&bound, &self.column)
                && is_same(value_kind(bound.limit), self.kind),
            None => false,
        }
    }
}

fn is_same(one: ColType, other: ColType) -> bool
    ensures { result ≡ same_type one other }
{
    match (one, other) {
        (ColType::Int, ColType::Int) | (ColType::Text, ColType::Text) => true,
        (ColType::Int, ColType::Text) | (ColType::Text, ColType::Int) => false,
    }
}

/// Whether a part before compares the same column with a constant of the same type.
pub(crate) fn stands_before(before: &Before<'_>, bound: &ColumnBound<'_>) -> bool
    ensures { result ≡ some_alike (parts_before before.now) (Some (bound_shown bound.now)) }
{
    let column = ColumnOf {
        atom: bound.atom,
        name: bound.name,
    };
    let kind = value_kind(bound.limit);
    some_before(before, &IsAlike { column, kind })
}
