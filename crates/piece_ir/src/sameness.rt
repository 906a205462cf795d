//! Whether two expressions, conditions or pieces are the same.

ghost use Rattle.std.specs.Prelude.{◌≡◌, ◌&&◌, map};
ghost use Rattle.smo_ops_types.specs.Changes.{sets_of};
ghost use Rattle.cond_expr.specs.Seen.{tree, test, trees_of, tests_of};
ghost use Rattle.piece_ir.specs.Shown.{piece_of, shown_pieces};
ghost use Rattle.piece_ir.specs.Sameness.{same_whose, same_tree, same_trees, same_test, same_tests};
ghost use Rattle.piece_ir.specs.Sameness.{same_names, same_outs, same_piece, same_pieces};

use crate::Piece;
use cond_expr::{ColRef, Cond, Expr, Whose, same_way};
use prima_base::Name;

fn same_whose(a: &Whose, b: &Whose) -> bool
    ensures { result ≡ same_whose a.now b.now }
{
    match (a, b) {
        (Whose::Free, Whose::Free) => true,
        (Whose::Alias(name), Whose::Alias(other)) => name == other,
        (Whose::Atom(atom), Whose::Atom(other)) => *atom == *other,
        _ => false,
    }
}

#[cycle(same)]
#[tactic(auto, using(cond_expr::proofs::SeenLaws::tree_of_concat, cond_expr::proofs::SeenLaws::tree_of_case))]
fn same_expr(a: &Expr, b: &Expr) -> bool
    ensures { result ≡ same_tree (tree a.now) (tree b.now) }
{
    match (a, b) {
        (Expr::Col(one), Expr::Col(other)) => {
            same_whose(&one.whose, &other.whose) && one.name == other.name
        }
        (Expr::Const(one), Expr::Const(other)) => one.lend() == other.lend(),
        (Expr::Length(one), Expr::Length(other)) => same_expr(one, other),
        (Expr::Concat(parts), Expr::Concat(others)) => same_exprs(parts, others),
        (Expr::Case(cond, first, second), Expr::Case(condition, one, other)) => {
            same_cond(cond, condition) && same_expr(first, one) && same_expr(second, other)
        }
        _ => false,
    }
}

#[cycle(same)]
fn same_exprs(a: &[Expr], b: &[Expr]) -> bool
    ensures { result ≡ same_trees (trees_of (map tree a.now)) (trees_of (map tree b.now)) }
{
    let mut others = b;
    for one in a {
        match others {
            [] => return false,
            [other, rest @ ..] => {
                if !same_expr(one, other) {
                    return false;
                }
                others = rest;
            }
        }
    }
    others.is_empty()
}

#[cycle(same)]
#[tactic(auto, using(cond_expr::proofs::SeenLaws::test_of_and, cond_expr::proofs::SeenLaws::test_of_or, cond_expr::proofs::SeenLaws::test_of_cmp))]
fn same_cond(a: &Cond, b: &Cond) -> bool
    ensures { result ≡ same_test (test a.now) (test b.now) }
{
    match (a, b) {
        (Cond::False, Cond::False) | (Cond::True, Cond::True) => true,
        (Cond::Cmp(op, left, right), Cond::Cmp(other, one, two)) => {
            same_way(*op, *other) && same_expr(left, one) && same_expr(right, two)
        }
        (Cond::And(parts), Cond::And(others)) => same_conds(parts, others),
        (Cond::Or(parts), Cond::Or(others)) => same_conds(parts, others),
        (Cond::Not(one), Cond::Not(other)) => same_cond(one, other),
        _ => false,
    }
}

#[cycle(same)]
fn same_conds(a: &[Cond], b: &[Cond]) -> bool
    ensures { result ≡ same_tests (tests_of (map test a.now)) (tests_of (map test b.now)) }
{
    let mut others = b;
    for one in a {
        match others {
            [] => return false,
            [other, rest @ ..] => {
                if !same_cond(one, other) {
                    return false;
                }
                others = rest;
            }
        }
    }
    others.is_empty()
}

fn same_names(a: &[Name], b: &[Name]) -> bool
    ensures { result ≡ same_names a.now b.now }
{
    match a {
        [] => b.is_empty(),
        [one, rest @ ..] => match b {
            [] => false,
            [other, others @ ..] => one == other && same_names(rest, others),
        },
    }
}

fn same_outs(a: &[(Name, Expr)], b: &[(Name, Expr)]) -> bool
    ensures { result ≡ same_outs (sets_of a.now) (sets_of b.now) }
{
    match a {
        [] => b.is_empty(),
        [one, rest @ ..] => match b {
            [] => false,
            [other, others @ ..] => one.0 == other.0
                && same_expr(&one.1, &other.1)
                && same_outs(rest, others),
        },
    }
}

// Whether two pieces are one.
fn same_piece(a: &Piece, b: &Piece) -> bool
    ensures { result ≡ same_piece (piece_of a.now) (piece_of b.now) }
{
    same_names(&a.atoms, &b.atoms) && same_cond(&a.cond, &b.cond) && same_outs(&a.outs, &b.outs)
}

/// Whether two pieces are one but for the tables that they are over: their conditions are the same,
/// and their outputs, as they are written. It takes no memory.
pub fn same_form(a: &Piece, b: &Piece) -> bool
    ensures { result ≡ (same_test (piece_of a.now).cond (piece_of b.now).cond
        && same_outs (piece_of a.now).outs (piece_of b.now).outs) }
{
    same_cond(&a.cond, &b.cond) && same_outs(&a.outs, &b.outs)
}

/// Whether pieces are one by one the same: over the same tables, with the same condition and the
/// same outputs, as they are written. It takes no memory.
pub fn same_pieces(a: &[Piece], b: &[Piece]) -> bool
    ensures { result ≡ same_pieces (shown_pieces a.now) (shown_pieces b.now) }
{
    match a {
        [] => b.is_empty(),
        [one, rest @ ..] => match b {
            [] => false,
            [other, others @ ..] => same_piece(one, other) && same_pieces(rest, others),
        },
    }
}
