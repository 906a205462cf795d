ghost use Rattle.std.specs.Prelude.{◌≡◌, IfSome};
ghost use Rattle.prima_base.specs.Columns.{IsValid};
ghost use Rattle.cond_expr.specs.Seen.{tree, test};
ghost use Rattle.cond_expr.specs.Parts.{column_with, sides, bound_of};
ghost use Rattle.cond_expr_dead.specs.Shown.{bounds_shown};

use cond_expr::{CmpOp, Cond, Expr, Whose, turned_op};
use prima_base::{Name, Value};

/// A column of an atom, how it is compared, and with which constant.
#[derive(Clone, Copy)]
pub(crate) struct ColumnBound<'a> {
    pub atom: u32,
    pub name: &'a Name,
    pub op: CmpOp,
    pub limit: &'a Value,
}

fn column_with<'a>(op: CmpOp, column: &'a Expr, limit: &'a Value) -> Option<ColumnBound<'a>>
    ensures value { bounds_shown result ≡ column_with op (tree column.now) limit.now }
    ensures valid { IfSome result (λ b. IsValid b.limit.now) }
{
    let _valid = limit.lend();
    match column {
        Expr::Col(reference) => match &reference.whose {
            Whose::Atom(atom) => Some(ColumnBound {
                atom: *atom,
                name: &reference.name,
                op,
                limit,
            }),
            Whose::Free | Whose::Alias(_) => None,
        },
        Expr::Const(_) | Expr::Length(_) | Expr::Concat(_) | Expr::Case(_, _, _) => None,
    }
}

// A constant on the left, or else one on the right.
fn sides<'a>(op: CmpOp, left: &'a Expr, right: &'a Expr) -> Option<ColumnBound<'a>>
    ensures value { bounds_shown result ≡ sides op (tree left.now) (tree right.now) }
    ensures valid { IfSome result (λ b. IsValid b.limit.now) }
{
    match (left, right) {
        (Expr::Const(limit), _) => column_with(turned_op(op), right, limit),
        (_, Expr::Const(limit)) => column_with(op, left, limit),
        (_, _) => None,
    }
}

/// The part of a condition as a comparison of just one column with a constant, the column on its
/// left.
pub(crate) fn bound_of(part: &Cond) -> Option<ColumnBound<'_>>
    ensures value { bounds_shown result ≡ bound_of (test part.now) }
    ensures valid { IfSome result (λ b. IsValid b.limit.now) }
{
    match part {
        Cond::Cmp(op, left, right) => sides(*op, left, right),
        Cond::False | Cond::True | Cond::And(_) | Cond::Or(_) | Cond::Not(_) => None,
    }
}
