ghost use Rattle.std.specs.Prelude.{◌≡◌, IfOk};
ghost use Rattle.prima_base.specs.declared.refusal.OpKind.TheVariants.{PartitionTable as Handled};
ghost use Rattle.schema_catalog.specs.Tables.{Tables};
ghost use Rattle.cond_expr.specs.Seen.{test};
ghost use Rattle.smo_ops_types.specs.Operators.{partition_table};
ghost use Rattle.piece_ir.specs.Shown.{all_views_of};
ghost use Rattle.piece_ir_spec.specs.OperatorViews.{operator_views};
ghost use Rattle.rewrite_rules.specs.LivingUnfoldings.{living_by_views};

use crate::Rule;
use crate::part::{not_met, parts_of};
use crate::table_view::{one_view, two};
use crate::unfolded_piece::unfolded;
use crate::view::selected;
use cond_expr::Cond;
use piece_ir::{Piece, TableViews};
use prima_base::{Name, NoMemory, OpKind};
use schema_catalog::Schema;
use smo_ops_types::Op;
use std::alloc::Global;

/// The rule of PARTITION TABLE: the first made table has the rows that meet the parts of the
/// condition, the second those that do not meet it.
#[derive(Drop)]
pub struct PartitionTableRule;

/// The first made table has the rows that meet the parts of the condition, the second those that do
/// not meet it.
pub(crate) fn views(
    alloc: Global,
    table: &Name,
    yes: &Name,
    cond: &Cond,
    no: &Name,
) -> Result<Vec<TableViews>, NoMemory>
    ensures { (tables : Tables)
        → IfOk result (λ v. all_views_of v.items
        ≡ operator_views tables (partition_table table.now yes.now (test cond.now) no.now)) }
{
    let meeting = selected(alloc, table, parts_of(alloc, cond)?)?;
    let others = selected(alloc, table, not_met(alloc, cond)?)?;
    let first = one_view(alloc, yes, meeting)?;
    let second = one_view(alloc, no, others)?;
    two(alloc, first, second)
}

impl Rule for PartitionTableRule {
    ghost handles = { λ _. Handled };

    ghost answers = { λ _. living_by_views operator_views };

    #[tactic(auto, using(crate::proofs::RuleLaw::valid))]
    fn kind(&self) -> OpKind {
        OpKind::PartitionTable
    }

    fn rewrite(
        &self,
        alloc: Global,
        op: &Op,
        before: &Schema,
        piece: &Piece,
    ) -> Result<Vec<Piece>, NoMemory> {
        unfolded(alloc, op, before, piece)
    }
}
