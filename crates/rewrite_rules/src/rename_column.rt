ghost use Rattle.std.specs.Prelude.{◌≡◌, IfOk};
ghost use Rattle.prima_base.specs.declared.refusal.OpKind.TheVariants.{RenameColumn as Handled};
ghost use Rattle.schema_catalog.specs.Tables.{Tables};
ghost use Rattle.smo_ops_types.specs.Operators.{rename_column};
ghost use Rattle.piece_ir.specs.Shown.{all_views_of};
ghost use Rattle.piece_ir_spec.specs.OperatorViews.{operator_views};
ghost use Rattle.rewrite_rules.specs.LivingUnfoldings.{living_by_views};

use crate::Rule;
use crate::table_view::{one, one_view};
use crate::unfolded_piece::unfolded;
use crate::view::computed;
use piece_ir::{Piece, TableViews, column_of};
use prima_base::{Name, NoMemory, OpKind};
use schema_catalog::Schema;
use smo_ops_types::Op;
use std::alloc::Global;

/// The rule of RENAME COLUMN: the old column stands for the new one.
#[derive(Drop)]
pub struct RenameColumnRule;

/// The made table is the old one, with the old column in place of the new one.
pub(crate) fn views(
    alloc: Global,
    column: &Name,
    table: &Name,
    into: &Name,
) -> Result<Vec<TableViews>, NoMemory>
    ensures { (tables : Tables)
        → IfOk result (λ v. all_views_of v.items
        ≡ operator_views tables (rename_column column.now table.now into.now)) }
{
    let rows = computed(alloc, table, into, column_of(0, column)?)?;
    one(alloc, one_view(alloc, table, rows)?)
}

impl Rule for RenameColumnRule {
    ghost handles = { λ _. Handled };

    ghost answers = { λ _. living_by_views operator_views };

    #[tactic(auto, using(crate::proofs::RuleLaw::valid))]
    fn kind(&self) -> OpKind {
        OpKind::RenameColumn
    }

    fn rewrite(
        &self,
        alloc: Global,
        op: &Op,
        before: &Schema,
        piece: &Piece,
    ) -> Result<Vec<Piece>, NoMemory> {
        unfolded(alloc, op, before, piece)
    }
}
