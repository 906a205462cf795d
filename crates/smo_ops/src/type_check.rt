ghost use Rattle.std.specs.Prelude.{◌≡◌, ◌++◌, ◌+◌, ◌<◌, ◌≤◌, ◌^◌, None, IfOk};
ghost use Rattle.cond_expr.specs.Seen.{tree, test};
ghost use Rattle.cond_expr.specs.Sizes.{nodes_of, test_nodes};
ghost use Rattle.cond_expr.specs.Faults.{references, test_references, first_unknown};
ghost use Rattle.smo_ops_types.specs.Changes.{sets_of};
ghost use Rattle.smo_ops_spec.specs.OneRow.{own_kinds};
ghost use Rattle.prima_base.specs.Faults.{IsTested};
ghost use Rattle.smo_ops_spec.specs.Checks.{AreSmall, reference_fault, set_references, set_tests};
ghost use Rattle.smo_ops_spec.specs.Checks.{set_faults, sets_nodes, test_fault};
ghost use Rattle.smo_ops.specs.Walks.{IsWalked};

use cond_expr::{Cond, Expr, typed_cond, typed_expr, unknown_of_cond, unknown_of_expr};
use prima_base::{Name, Refusal};
use smo_ops_operators::{OwnColumns, type_in};
use smo_ops_types::ChangeFault;

// The first reference of an expression to no column of the table.
fn check_references(own: &OwnColumns<'_>, expr: &Expr) -> Result<(), ChangeFault>
    requires { nodes_of (tree expr.now) ≤ 256 }
    ensures { IsTested (reference_fault own.now (references (tree expr.now))) result }
{
    match unknown_of_expr(expr, own.atoms()) {
        Some(name) => Err(ChangeFault::Refused(Refusal::NoColumn(name.copy()?))),
        None => Ok(()),
    }
}

// The first reference of a condition to no column of the table.
pub(crate) fn check_test_references(own: &OwnColumns<'_>, cond: &Cond) -> Result<(), ChangeFault>
    requires { test_nodes (test cond.now) ≤ 256 }
    ensures { IsTested (reference_fault own.now (test_references (test cond.now))) result }
{
    match unknown_of_cond(cond, own.atoms()) {
        Some(name) => Err(ChangeFault::Refused(Refusal::NoColumn(name.copy()?))),
        None => Ok(()),
    }
}

// The first reference of what is set, and then of the condition, to no column of the table.
pub(crate) fn check_all_references(
    own: &OwnColumns<'_>,
    sets: &[(Name, Expr)],
    cond: &Cond,
) -> Result<(), ChangeFault>
    requires sets { AreSmall (sets_of sets.now) }
    requires test { test_nodes (test cond.now) ≤ 256 }
    ensures { IsTested (reference_fault own.now
        (set_references (sets_of sets.now) ++ test_references (test cond.now))) result }
{
    for (_, expr) in sets {
        check_references(own, expr)?;
    }
    check_test_references(own, cond)
}

// Whether an expression whose root is node `at` is typed, and of the type of the column with this
// name; the number of the node after it.
fn check_set(own: &OwnColumns<'_>, name: &Name, expr: &Expr, at: u32) -> Result<u32, ChangeFault>
    requires small { nodes_of (tree expr.now) ≤ 256 }
    requires room { at + nodes_of (tree expr.now) < 2 ^ 32 }
    requires known { first_unknown (own_kinds own.now) (references (tree expr.now)) ≡ None }
    ensures { IsWalked (set_tests own.now at (name.now, tree expr.now))
        (at + nodes_of (tree expr.now)) result }
{
    match typed_expr(expr, own.atoms()) {
        Ok(typed) => {
            if type_in(own.columns(), name) == Some(typed.kind) {
                return Ok(at + typed.nodes);
            }
            Err(ChangeFault::Refused(Refusal::WrongType(at)))
        }
        Err(place) => Err(ChangeFault::Refused(Refusal::WrongType(at + place))),
    }
}

// The same of each of what is set, before the next; the first one begins at node `at`.
pub(crate) fn check_sets(
    own: &OwnColumns<'_>,
    sets: &[(Name, Expr)],
    at: u32,
) -> Result<u32, ChangeFault>
    requires small { AreSmall (sets_of sets.now) }
    requires room { at + sets_nodes (sets_of sets.now) < 2 ^ 32 }
    requires known { first_unknown (own_kinds own.now) (set_references (sets_of sets.now)) ≡ None }
    ensures { IsWalked (set_faults own.now at (sets_of sets.now))
        (at + sets_nodes (sets_of sets.now)) result }
{
    let mut next = at;
    for (name, expr) in sets {
        next = check_set(own, name, expr, next)?;
    }
    Ok(next)
}

// Whether a condition whose root is node `at` is typed; the number of the node after it.
pub(crate) fn check_test_types(
    own: &OwnColumns<'_>,
    cond: &Cond,
    at: u32,
) -> Result<u32, ChangeFault>
    requires small { test_nodes (test cond.now) ≤ 256 }
    requires room { at + test_nodes (test cond.now) < 2 ^ 32 }
    requires known { first_unknown (own_kinds own.now) (test_references (test cond.now)) ≡ None }
    ensures tested { IsTested (test_fault own.now at (test cond.now)) result }
    ensures next { IfOk result (λ next. next ≡ at + test_nodes (test cond.now)) }
{
    match typed_cond(cond, own.atoms()) {
        Ok(nodes) => Ok(at + nodes),
        Err(place) => Err(ChangeFault::Refused(Refusal::WrongType(at + place))),
    }
}
