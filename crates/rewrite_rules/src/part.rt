ghost use Rattle.std.specs.Prelude.{◌≡◌, [], ◌∷◌, IfOk, map};
ghost use Rattle.cond_expr.specs.Seen.{test};
ghost use Rattle.cond_expr.specs.Parts.{parts_but_true};
ghost use Rattle.piece_ir_spec.specs.OperatorViews.{opposite, unmet};

use cond_expr::{CmpOp, Cond, Itself};
use piece_ir::append_parts;
use prima_base::NoMemory;
use std::alloc::Global;

/// The parts of the condition.
pub(crate) fn parts_of(alloc: Global, cond: &Cond) -> Result<Vec<Cond>, NoMemory>
    ensures { IfOk result (λ v. map test v.items ≡ parts_but_true (test cond.now)) }
{
    let mut parts = Vec::new(alloc);
    append_parts(alloc, &Itself, cond, &mut parts)?;
    Ok(parts)
}

// The comparison that holds just where this one does not.
fn opposite(op: CmpOp) -> CmpOp
    ensures { result ≡ opposite op }
{
    match op {
        CmpOp::Eq => CmpOp::Ne,
        CmpOp::Ne => CmpOp::Eq,
        CmpOp::Lt => CmpOp::Ge,
        CmpOp::Le => CmpOp::Gt,
        CmpOp::Gt => CmpOp::Le,
        CmpOp::Ge => CmpOp::Lt,
    }
}

// That the condition is not met: of a comparison the opposite one, else its NOT.
fn unmet(alloc: Global, cond: &Cond) -> Result<Cond, NoMemory>
    ensures { IfOk result (λ c. test c ≡ unmet (test cond.now)) }
{
    match cond {
        Cond::Cmp(op, left, right) => Cond::compare(
            alloc,
            opposite(*op),
            left.copy(alloc)?,
            right.copy(alloc)?,
        ),
        _ => Cond::not(alloc, cond.copy(alloc)?),
    }
}

/// The one part, that the condition is not met.
pub(crate) fn not_met(alloc: Global, cond: &Cond) -> Result<Vec<Cond>, NoMemory>
    ensures { IfOk result (λ v. map test v.items ≡ unmet (test cond.now) ∷ []) }
{
    let mut parts = Vec::new(alloc);
    parts.push(unmet(alloc, cond)?)?;
    Ok(parts)
}
