//! The six comparisons.

ghost use Rattle.std.specs.Prelude.{◌≡◌};
ghost use Rattle.cond_expr.specs.Comparisons.{turned_op, same_way};

use crate::CmpOp;

/// The comparison of the right side with the left one. It takes no memory.
pub fn turned_op(op: CmpOp) -> CmpOp
    ensures { result ≡ turned_op op }
{
    match op {
        CmpOp::Eq => CmpOp::Eq,
        CmpOp::Ne => CmpOp::Ne,
        CmpOp::Lt => CmpOp::Gt,
        CmpOp::Le => CmpOp::Ge,
        CmpOp::Gt => CmpOp::Lt,
        CmpOp::Ge => CmpOp::Le,
    }
}

/// Whether the two comparisons are one. It takes no memory.
pub fn same_way(op: CmpOp, other: CmpOp) -> bool
    ensures { result ≡ same_way op other }
{
    match (op, other) {
        (CmpOp::Eq, CmpOp::Eq)
        | (CmpOp::Ne, CmpOp::Ne)
        | (CmpOp::Lt, CmpOp::Lt)
        | (CmpOp::Le, CmpOp::Le)
        | (CmpOp::Gt, CmpOp::Gt)
        | (CmpOp::Ge, CmpOp::Ge) => true,
        _ => false,
    }
}
