ghost use Rattle.std.specs.Prelude.{◌≡◌, IfOk};
ghost use Rattle.prima_base.specs.declared.refusal.OpKind.TheVariants.{JoinTable as Handled};
ghost use Rattle.cond_expr.specs.Seen.{test};
ghost use Rattle.smo_ops_types.specs.Operators.{join_table};
ghost use Rattle.piece_ir.specs.Shown.{all_views_of};
ghost use Rattle.piece_ir_spec.specs.OperatorViews.{operator_views};
ghost use Rattle.rewrite_rules.specs.LivingUnfoldings.{living_by_views};

use crate::Rule;
use crate::pair::paired;
use crate::table_view::{one, one_view};
use crate::unfolded_piece::unfolded;
use cond_expr::Cond;
use piece_ir::{Piece, TableViews};
use prima_base::{Name, NoMemory, OpKind};
use schema_catalog::Schema;
use smo_ops_types::Op;
use std::alloc::Global;

/// The rule of JOIN TABLE: the made table has the pairs of rows that agree on the common columns
/// and meet the condition.
#[derive(Drop)]
pub struct JoinTableRule;

/// The made table has the pairs of rows that agree on the common columns and meet the condition.
pub(crate) fn views(
    alloc: Global,
    before: &Schema,
    left: &Name,
    right: &Name,
    into: &Name,
    cond: &Cond,
) -> Result<Vec<TableViews>, NoMemory>
    ensures { IfOk result (λ v. all_views_of v.items
        ≡ operator_views before.now (join_table left.now right.now into.now (test cond.now))) }
{
    let pairs = paired(alloc, before, left, right, cond)?;
    one(alloc, one_view(alloc, into, pairs)?)
}

impl Rule for JoinTableRule {
    ghost handles = { λ _. Handled };

    ghost answers = { λ _. living_by_views operator_views };

    #[tactic(auto, using(crate::proofs::RuleLaw::valid))]
    fn kind(&self) -> OpKind {
        OpKind::JoinTable
    }

    fn rewrite(
        &self,
        alloc: Global,
        op: &Op,
        before: &Schema,
        piece: &Piece,
    ) -> Result<Vec<Piece>, NoMemory> {
        unfolded(alloc, op, before, piece)
    }
}
