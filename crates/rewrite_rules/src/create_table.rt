ghost use Rattle.std.specs.Prelude.{◌≡◌, IfOk, List};
ghost use Rattle.prima_base.specs.Columns.{Column};
ghost use Rattle.prima_base.specs.declared.refusal.OpKind.TheVariants.{CreateTable as Handled};
ghost use Rattle.schema_catalog.specs.Tables.{Tables};
ghost use Rattle.smo_ops_types.specs.Operators.{create_table};
ghost use Rattle.piece_ir.specs.Shown.{all_views_of};
ghost use Rattle.piece_ir_spec.specs.OperatorViews.{operator_views};
ghost use Rattle.rewrite_rules.specs.LivingUnfoldings.{living_by_views};

use crate::Rule;
use crate::table_view::one;
use crate::unfolded_piece::unfolded;
use piece_ir::{Piece, TableViews};
use prima_base::{Name, NoMemory, OpKind};
use schema_catalog::Schema;
use smo_ops_types::Op;
use std::alloc::Global;

/// The rule of CREATE TABLE: the made table has no view, since it has no row, so a piece that names
/// it becomes no piece.
#[derive(Drop)]
pub struct CreateTableRule;

/// The made table has no view, since it has no row.
pub(crate) fn views(alloc: Global, table: &Name) -> Result<Vec<TableViews>, NoMemory>
    ensures { (tables : Tables) → (columns : List Column)
        → IfOk result (λ v. all_views_of v.items
        ≡ operator_views tables (create_table table.now columns)) }
{
    let made = TableViews {
        table: table.copy()?,
        views: Vec::new(alloc),
    };
    one(alloc, made)
}

impl Rule for CreateTableRule {
    ghost handles = { λ _. Handled };

    ghost answers = { λ _. living_by_views operator_views };

    #[tactic(auto, using(crate::proofs::RuleLaw::valid))]
    fn kind(&self) -> OpKind {
        OpKind::CreateTable
    }

    fn rewrite(
        &self,
        alloc: Global,
        op: &Op,
        before: &Schema,
        piece: &Piece,
    ) -> Result<Vec<Piece>, NoMemory> {
        unfolded(alloc, op, before, piece)
    }
}
