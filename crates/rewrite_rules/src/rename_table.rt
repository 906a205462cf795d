ghost use Rattle.std.specs.Prelude.{◌≡◌, IfOk};
ghost use Rattle.prima_base.specs.declared.refusal.OpKind.TheVariants.{RenameTable as Handled};
ghost use Rattle.schema_catalog.specs.Tables.{Tables};
ghost use Rattle.smo_ops_types.specs.Operators.{rename_table};
ghost use Rattle.piece_ir.specs.Shown.{all_views_of};
ghost use Rattle.piece_ir_spec.specs.OperatorViews.{operator_views};
ghost use Rattle.rewrite_rules.specs.LivingUnfoldings.{living_by_views};

use crate::Rule;
use crate::table_view::{one, one_view};
use crate::unfolded_piece::unfolded;
use piece_ir::{Piece, TableViews, View};
use prima_base::{Name, NoMemory, OpKind};
use schema_catalog::Schema;
use smo_ops_types::Op;
use std::alloc::Global;

/// The rule of RENAME TABLE: the made table is the old one, whole.
#[derive(Drop)]
pub struct RenameTableRule;

/// The made table is the old one, whole.
pub(crate) fn views(alloc: Global, table: &Name, into: &Name) -> Result<Vec<TableViews>, NoMemory>
    ensures { (tables : Tables)
        → IfOk result (λ v. all_views_of v.items
        ≡ operator_views tables (rename_table table.now into.now)) }
{
    one(alloc, one_view(alloc, into, View::whole(alloc, table)?)?)
}

impl Rule for RenameTableRule {
    ghost handles = { λ _. Handled };

    ghost answers = { λ _. living_by_views operator_views };

    #[tactic(auto, using(crate::proofs::RuleLaw::valid))]
    fn kind(&self) -> OpKind {
        OpKind::RenameTable
    }

    fn rewrite(
        &self,
        alloc: Global,
        op: &Op,
        before: &Schema,
        piece: &Piece,
    ) -> Result<Vec<Piece>, NoMemory> {
        unfolded(alloc, op, before, piece)
    }
}
