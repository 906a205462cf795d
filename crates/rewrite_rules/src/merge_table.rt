ghost use Rattle.std.specs.Prelude.{◌≡◌, IfOk};
ghost use Rattle.prima_base.specs.declared.refusal.OpKind.TheVariants.{MergeTable as Handled};
ghost use Rattle.schema_catalog.specs.Tables.{Tables};
ghost use Rattle.smo_ops_types.specs.Operators.{merge_table};
ghost use Rattle.piece_ir.specs.Shown.{all_views_of};
ghost use Rattle.piece_ir_spec.specs.OperatorViews.{operator_views};
ghost use Rattle.rewrite_rules.specs.LivingUnfoldings.{living_by_views};

use crate::Rule;
use crate::table_view::{one, two_views};
use crate::unfolded_piece::unfolded;
use piece_ir::{Piece, TableViews, View};
use prima_base::{Name, NoMemory, OpKind};
use schema_catalog::Schema;
use smo_ops_types::Op;
use std::alloc::Global;

/// The rule of MERGE TABLE: the made table is the union of the two, each whole.
#[derive(Drop)]
pub struct MergeTableRule;

/// The made table is the union of the two, each whole.
pub(crate) fn views(
    alloc: Global,
    left: &Name,
    right: &Name,
    into: &Name,
) -> Result<Vec<TableViews>, NoMemory>
    ensures { (tables : Tables)
        → IfOk result (λ v. all_views_of v.items
        ≡ operator_views tables (merge_table left.now right.now into.now)) }
{
    let first = View::whole(alloc, left)?;
    let second = View::whole(alloc, right)?;
    one(alloc, two_views(alloc, into, first, second)?)
}

impl Rule for MergeTableRule {
    ghost handles = { λ _. Handled };

    ghost answers = { λ _. living_by_views operator_views };

    #[tactic(auto, using(crate::proofs::RuleLaw::valid))]
    fn kind(&self) -> OpKind {
        OpKind::MergeTable
    }

    fn rewrite(
        &self,
        alloc: Global,
        op: &Op,
        before: &Schema,
        piece: &Piece,
    ) -> Result<Vec<Piece>, NoMemory> {
        unfolded(alloc, op, before, piece)
    }
}
