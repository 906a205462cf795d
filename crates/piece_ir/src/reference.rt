//! The references in expressions and conditions: whether one is to a column of an atom.

ghost use Rattle.std.specs.Prelude.{◌≡◌, map};
ghost use Rattle.std.specs.List.{flat_map};
ghost use Rattle.cond_expr.specs.Seen.{tree, test, trees_of, tests_of};
ghost use Rattle.cond_expr.specs.Faults.{references, trees_references, test_references};
ghost use Rattle.cond_expr.specs.Faults.{tests_references};
ghost use Rattle.piece_ir.specs.Substituting.{is_column, names_column};
ghost use Rattle.smo_ops_types.specs.Changes.{sets_of};
ghost use Rattle.piece_ir_spec.specs.Pieces.{out_trees};

use cond_expr::{ColRef, Cond, Expr, Whose};
use prima_base::Name;

fn is_to_column(reference: &ColRef, atom: u32, column: &Name) -> bool
    ensures { result ≡ is_column atom column.now reference.now }
{
    match reference.whose {
        Whose::Atom(other) => atom == other && &reference.name == column,
        Whose::Free | Whose::Alias(_) => false,
    }
}

/// Whether an expression names a column of an atom.
#[cycle(names)]
#[tactic(auto, using(crate::proofs::ReferenceLists::names_append, cond_expr::proofs::SeenLaws::tree_of_concat, cond_expr::proofs::SeenLaws::tree_of_case, cond_expr::proofs::SeenLaws::test_of_and, cond_expr::proofs::SeenLaws::test_of_or, cond_expr::proofs::SeenLaws::test_of_cmp))]
pub(crate) fn expr_names(expr: &Expr, atom: u32, column: &Name) -> bool
    ensures { result ≡ names_column atom column.now (references (tree expr.now)) }
{
    match expr {
        Expr::Col(reference) => is_to_column(reference, atom, column),
        Expr::Const(_) => false,
        Expr::Length(part) => expr_names(part, atom, column),
        Expr::Concat(parts) => exprs_name(parts, atom, column),
        Expr::Case(cond, first, second) => {
            cond_names(cond, atom, column)
                || expr_names(first, atom, column)
                || expr_names(second, atom, column)
        }
    }
}

#[cycle(names)]
#[tactic(auto, using(crate::proofs::ReferenceLists::names_append, cond_expr::proofs::SeenLaws::tree_of_concat, cond_expr::proofs::SeenLaws::tree_of_case, cond_expr::proofs::SeenLaws::test_of_and, cond_expr::proofs::SeenLaws::test_of_or, cond_expr::proofs::SeenLaws::test_of_cmp))]
fn exprs_name(parts: &[Expr], atom: u32, column: &Name) -> bool
    ensures { result ≡ names_column atom column.now
        (trees_references (trees_of (map tree parts.now))) }
{
    for part in parts {
        if expr_names(part, atom, column) {
            return true;
        }
    }
    false
}

/// Whether a condition names a column of an atom.
#[cycle(names)]
#[tactic(auto, using(crate::proofs::ReferenceLists::names_append, cond_expr::proofs::SeenLaws::tree_of_concat, cond_expr::proofs::SeenLaws::tree_of_case, cond_expr::proofs::SeenLaws::test_of_and, cond_expr::proofs::SeenLaws::test_of_or, cond_expr::proofs::SeenLaws::test_of_cmp))]
pub(crate) fn cond_names(cond: &Cond, atom: u32, column: &Name) -> bool
    ensures { result ≡ names_column atom column.now (test_references (test cond.now)) }
{
    match cond {
        Cond::False | Cond::True => false,
        Cond::Cmp(_, left, right) => {
            expr_names(left, atom, column) || expr_names(right, atom, column)
        }
        Cond::And(parts) => conds_name(parts, atom, column),
        Cond::Or(parts) => conds_name(parts, atom, column),
        Cond::Not(part) => cond_names(part, atom, column),
    }
}

#[cycle(names)]
#[tactic(auto, using(crate::proofs::ReferenceLists::names_append, cond_expr::proofs::SeenLaws::tree_of_concat, cond_expr::proofs::SeenLaws::tree_of_case, cond_expr::proofs::SeenLaws::test_of_and, cond_expr::proofs::SeenLaws::test_of_or, cond_expr::proofs::SeenLaws::test_of_cmp))]
fn conds_name(parts: &[Cond], atom: u32, column: &Name) -> bool
    ensures { result ≡ names_column atom column.now
        (tests_references (tests_of (map test parts.now))) }
{
    for part in parts {
        if cond_names(part, atom, column) {
            return true;
        }
    }
    false
}

#[tactic(auto, using(crate::proofs::ReferenceLists::names_append))]
/// Whether one of the outputs names a column of an atom.
pub(crate) fn outputs_name(outs: &[(Name, Expr)], atom: u32, column: &Name) -> bool
    ensures { result ≡ names_column atom column.now
        (flat_map references (out_trees (sets_of outs.now))) }
{
    for out in outs {
        if expr_names(&out.1, atom, column) {
            return true;
        }
    }
    false
}
