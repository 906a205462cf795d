//! Where in a row references stand, and what that says of a part of a condition.

ghost use Rattle.std.specs.Prelude.{◌≡◌, ◌+◌, ◌++◌, true, List, length, IfOk, IfSome};
ghost use Rattle.std.specs.Ordering.{is_eq};
ghost use Rattle.prima_base.specs.declared.value.Value.{Value as OneValue};
ghost use Rattle.prima_base.specs.Order.{value_cmp};
ghost use Rattle.cond_expr.specs.Rows.{cells};
ghost use Rattle.cond_expr.specs.Seen.{tree, test};
ghost use Rattle.cond_expr.specs.Faults.{test_references};
ghost use Rattle.cond_expr.specs.Values.{value};
ghost use Rattle.join_exec_spec.specs.Keeping.{value_at, meets};
ghost use Rattle.join_exec_spec.specs.Placing.{place, is_below, all_below};
ghost use Rattle.join_exec_levels.specs.Places.{column_place, equal_places, key_places, none_below};
ghost use Rattle.cond_expr.specs.References.{borrowed};

use cond_expr::{CmpOp, ColRef, Column, Cond, Expr, gather_references};
use prima_base::NoMemory;
use std::alloc::Global;

/// The place of the first column that the reference names.
pub fn place_of(columns: &[Column], reference: &ColRef) -> Option<usize>
    ensures { result ≡ place columns.now reference.now.whose reference.now.name }
{
    columns.iter().position(|column| reference.names(column))
}

// Whether the reference stands among so many values, and then so many more.
fn is_within(columns: &[Column], reference: &ColRef, taken: usize, width: usize) -> bool
    ensures { result ≡ is_below (taken + width)
        (place columns.now reference.now.whose reference.now.name) }
{
    match place_of(columns, reference) {
        Some(i) => i < taken || i - taken < width,
        None => false,
    }
}

fn are_within(columns: &[Column], references: &[&ColRef], taken: usize, width: usize) -> bool
    ensures { result ≡ all_below columns.now (taken + width) (borrowed references.now) }
{
    for reference in references {
        if !is_within(columns, reference, taken, width) {
            return false;
        }
    }
    true
}

/// Whether all references of the condition stand among so many values, and then so many more.
pub fn is_settled(
    alloc: Global,
    columns: &[Column],
    cond: &Cond,
    taken: usize,
    width: usize,
) -> Result<bool, NoMemory>
    ensures { IfOk result (λ b. b ≡ all_below columns.now (taken + width)
        (test_references (test cond.now))) }
{
    let mut references = Vec::new(alloc);
    gather_references(&mut references, &[], cond)?;
    Ok(are_within(columns, &references, taken, width))
}

// Whether none of the references stands among the first so many values.
fn are_after(columns: &[Column], references: &[&ColRef], taken: usize) -> bool
    ensures { result ≡ none_below columns.now taken (borrowed references.now) }
{
    for reference in references {
        if is_within(columns, reference, taken, 0) {
            return false;
        }
    }
    true
}

/// Whether no reference of the condition stands among the first so many values.
pub(crate) fn is_after(
    alloc: Global,
    columns: &[Column],
    cond: &Cond,
    taken: usize,
) -> Result<bool, NoMemory>
    ensures { IfOk result (λ b. b ≡ none_below columns.now taken
        (test_references (test cond.now))) }
{
    let mut references = Vec::new(alloc);
    gather_references(&mut references, &[], cond)?;
    Ok(are_after(columns, &references, taken))
}

/// The place of the column that the expression is: `None` exactly where it is no reference, or one
/// that names none of the columns.
pub fn column_place(columns: &[Column], expr: &Expr) -> Option<usize>
    ensures place { result ≡ column_place columns.now (tree expr.now) }
    ensures value { IfSome result (λ i. (row : List OneValue)
        → value (cells columns.now row) (tree expr.now) ≡ value_at row i) }
{
    match expr {
        Expr::Col(reference) => place_of(columns, reference),
        Expr::Const(_) | Expr::Length(_) | Expr::Concat(_) | Expr::Case(_, _, _) => None,
    }
}

// The two places whose values the condition says are equal: of each equality of two columns.
#[tactic(auto, using(cond_expr::proofs::SeenLaws::test_of_cmp))]
fn equal_places(columns: &[Column], cond: &Cond) -> Option<(usize, usize)>
    ensures places { result ≡ equal_places columns.now (test cond.now) }
    ensures values { IfSome result (λ r. (row : List OneValue)
        → meets columns.now (test cond.now) row
        ≡ is_eq (value_cmp (value_at row r.0) (value_at row r.1))) }
{
    match cond {
        Cond::Cmp(CmpOp::Eq, first, second) => {
            let a = column_place(columns, first)?;
            let b = column_place(columns, second)?;
            Some((a, b))
        }
        Cond::Cmp(_, _, _) | Cond::False | Cond::True | Cond::And(_) | Cond::Or(_) | Cond::Not(_) =>
            None,
    }
}

/// A place in a choice of so many values, and a place in a row of so many, that have one value in
/// whatever the two begin that meets the condition: `None` exactly where the condition is no
/// equality of a column of the one with a column of the other.
pub(crate) fn key_places(
    columns: &[Column],
    cond: &Cond,
    taken: usize,
    width: usize,
) -> Option<(usize, usize)>
    ensures places { result ≡ key_places columns.now (test cond.now) taken width }
    ensures values { IfSome result (λ r. (p y c : List OneValue) → length p ≡ taken
        → length y ≡ width → meets columns.now (test cond.now) ((p ++ y) ++ c) ≡ true
        → value_at y r.1 ≡ value_at p r.0) }
{
    let (a, b) = equal_places(columns, cond)?;
    if a < taken && taken <= b && b - taken < width {
        Some((a, b - taken))
    } else if b < taken && taken <= a && a - taken < width {
        Some((b, a - taken))
    } else {
        None
    }
}
