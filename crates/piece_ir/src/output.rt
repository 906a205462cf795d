//! The outputs of a piece, with what is put for their references.

ghost use Rattle.std.specs.Prelude.{◌≡◌, IfOk};
ghost use Rattle.smo_ops_types.specs.Changes.{set_of_expr, sets_of};
ghost use Rattle.piece_ir_spec.specs.Unfolding.{filled_out, filled_outs};

use cond_expr::{Expr, Fill, fill_expr};
use prima_base::{Name, NoMemory};
use std::alloc::Global;

fn fill_output<F: Fill>(alloc: Global, by: &F, out: &(Name, Expr)) -> Result<(Name, Expr), NoMemory>
    ensures { IfOk result (λ o. set_of_expr o ≡ filled_out (F.puts by.now) (set_of_expr out.now)) }
{
    Ok((out.0.copy()?, fill_expr(alloc, by, &out.1)?))
}

/// The outputs in which each reference is replaced by what is put for it.
pub(crate) fn fill_outputs<F: Fill>(
    alloc: Global,
    by: &F,
    outs: &[(Name, Expr)],
) -> Result<Vec<(Name, Expr)>, NoMemory>
    ensures { IfOk result (λ v. sets_of v.items ≡ filled_outs (F.puts by.now) (sets_of outs.now)) }
{
    let mut filled = Vec::with_capacity(alloc, outs.len())?;
    for out in outs {
        filled.push(fill_output(alloc, by, out)?)?;
    }
    Ok(filled)
}
