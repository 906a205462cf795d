//! The constants of versions that can come into a row are valid values, as their types have it:
//! each is met once.

ghost use Rattle.std.specs.Prelude.{map};
ghost use Rattle.smo_ops_types.specs.Operators.{operator_of, evolutions_of};
ghost use Rattle.smo_ops_types.specs.Commands.{version_of, versions_of};
ghost use Rattle.smo_ops_spec.specs.ValidValues.{OperatorHolds, AllOperatorsHold, VersionsHold};

use cond_expr::expr_size;
use smo_ops_types::{Op, Version, Versions};

// Meets those of an operator: they stand in the expression of an ADD COLUMN.
fn meet_operator(op: &Op)
    ensures { OperatorHolds (operator_of op.now) }
{
    if let Op::AddColumn { expr, .. } = op {
        let _met = expr_size(expr);
    }
}

fn meet_operators(ops: &[Op])
    ensures { AllOperatorsHold (evolutions_of ops.now) }
{
    for op in ops {
        meet_operator(op);
    }
}

fn meet_versions(versions: &[Version])
    ensures { VersionsHold (map version_of versions.now) }
{
    for version in versions {
        meet_operator(&version.op);
        meet_operators(&version.inverse);
    }
}

/// Meets those of each version's operator and of its inverse.
pub(crate) fn meet_constants(versions: &Versions)
    ensures { VersionsHold (versions_of versions.now) }
{
    meet_versions(&versions.list);
}
