ghost use Rattle.std.specs.Prelude.{◌≡◌, ◌<◌, ◌^◌, [], ◌∷◌, None, IfOk};
ghost use Rattle.cond_expr.specs.Seen.{tree, test};
ghost use Rattle.cond_expr.specs.Sizes.{nodes_of, test_nodes};
ghost use Rattle.cond_expr.specs.Faults.{references, test_references, first_unknown};
ghost use Rattle.smo_ops_spec.specs.First.{first_refusal};
ghost use Rattle.smo_ops_spec.specs.OneRow.{own_kinds};
ghost use Rattle.smo_ops_spec.specs.Preconditions.{few_columns, known_in, typed_in, test_known_in};
ghost use Rattle.smo_ops_spec.specs.Preconditions.{test_typed_in};
ghost use Rattle.smo_ops_spec.specs.Making.{type_of_value};
ghost use Rattle.prima_base.specs.Faults.{IsTested};

use cond_expr::{Cond, Expr, typed_cond, typed_expr, unknown_of_cond, unknown_of_expr};
use prima_base::limits::MAX_COLUMNS;
use prima_base::{ColType, Name, OpRefusal, What};
use smo_ops_columns::OwnColumns;
use smo_ops_types::OpFault;
use std::alloc::Global;

// A made table has few enough columns.
pub(crate) fn check_few_columns(columns: &[(Name, ColType)]) -> Result<(), OpFault>
    ensures { IsTested (few_columns columns.now) result }
{
    if columns.len() > MAX_COLUMNS {
        return Err(OpFault::Refused(OpRefusal::TooMany(What::Columns, MAX_COLUMNS as u64)));
    }
    Ok(())
}

// Each reference of the condition is to a column of the table.
pub(crate) fn check_test_known(
    table: &Name,
    own: &OwnColumns<'_>,
    cond: &Cond,
) -> Result<(), OpFault>
    requires { test_nodes (test cond.now) < 2 ^ 32 }
    ensures tested { IsTested (test_known_in table.now own.now (test cond.now)) result }
    ensures known { IfOk result (λ u. first_unknown (own_kinds own.now)
        (test_references (test cond.now)) ≡ None) }
{
    match unknown_of_cond(cond, own.atoms()) {
        Some(name) => Err(OpFault::Refused(OpRefusal::NoColumn(table.copy()?, name.copy()?))),
        None => Ok(()),
    }
}

// The condition is well-typed, where its references are to columns of the table.
pub(crate) fn check_test_typed(own: &OwnColumns<'_>, cond: &Cond) -> Result<(), OpFault>
    requires small { test_nodes (test cond.now) < 2 ^ 32 }
    requires known { first_unknown (own_kinds own.now) (test_references (test cond.now)) ≡ None }
    ensures { IsTested (test_typed_in own.now (test cond.now)) result }
{
    match typed_cond(cond, own.atoms()) {
        Ok(_) => Ok(()),
        Err(place) => Err(OpFault::Refused(OpRefusal::WrongType(place))),
    }
}

// Each reference of the expression is to a column of the table.
pub(crate) fn check_tree_known(
    table: &Name,
    own: &OwnColumns<'_>,
    expr: &Expr,
) -> Result<(), OpFault>
    requires { nodes_of (tree expr.now) < 2 ^ 32 }
    ensures tested { IsTested (known_in table.now own.now (tree expr.now)) result }
    ensures known { IfOk result (λ u. first_unknown (own_kinds own.now) (references (tree expr.now))
        ≡ None) }
{
    match unknown_of_expr(expr, own.atoms()) {
        Some(name) => Err(OpFault::Refused(OpRefusal::NoColumn(table.copy()?, name.copy()?))),
        None => Ok(()),
    }
}

// The type of the expression, where its references are to columns of the table.
pub(crate) fn check_tree_typed(own: &OwnColumns<'_>, expr: &Expr) -> Result<ColType, OpFault>
    requires small { nodes_of (tree expr.now) < 2 ^ 32 }
    requires known { first_unknown (own_kinds own.now) (references (tree expr.now)) ≡ None }
    ensures tested { IsTested (typed_in own.now (tree expr.now)) result }
    ensures kind { IfOk result (λ k. k ≡ type_of_value own.now (tree expr.now)) }
{
    match typed_expr(expr, own.atoms()) {
        Ok(typed) => Ok(typed.kind),
        Err(place) => Err(OpFault::Refused(OpRefusal::WrongType(place))),
    }
}

// The condition is over the table's columns, and well-typed.
pub(crate) fn check_test(
    alloc: Global,
    table: &Name,
    columns: &[(Name, ColType)],
    cond: &Cond,
) -> Result<(), OpFault>
    requires { test_nodes (test cond.now) < 2 ^ 32 }
    ensures { IsTested (first_refusal (test_known_in table.now columns.now (test cond.now)
        ∷ test_typed_in columns.now (test cond.now) ∷ [])) result }
{
    let own = OwnColumns::new(alloc, columns)?;
    check_test_known(table, &own, cond)?;
    check_test_typed(&own, cond)
}

// The type of the expression, which is over the table's columns, and well-typed.
pub(crate) fn check_tree(
    alloc: Global,
    table: &Name,
    columns: &[(Name, ColType)],
    expr: &Expr,
) -> Result<ColType, OpFault>
    requires { nodes_of (tree expr.now) < 2 ^ 32 }
    ensures tested { IsTested (first_refusal (known_in table.now columns.now (tree expr.now)
        ∷ typed_in columns.now (tree expr.now) ∷ [])) result }
    ensures kind { IfOk result (λ k. k ≡ type_of_value columns.now (tree expr.now)) }
{
    let own = OwnColumns::new(alloc, columns)?;
    check_tree_known(table, &own, expr)?;
    check_tree_typed(&own, expr)
}
