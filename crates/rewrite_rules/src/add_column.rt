ghost use Rattle.std.specs.Prelude.{◌≡◌, IfOk};
ghost use Rattle.prima_base.specs.declared.refusal.OpKind.TheVariants.{AddColumn as Handled};
ghost use Rattle.schema_catalog.specs.Tables.{Tables};
ghost use Rattle.cond_expr.specs.Seen.{tree};
ghost use Rattle.smo_ops_types.specs.Operators.{add_column};
ghost use Rattle.piece_ir.specs.Shown.{all_views_of};
ghost use Rattle.piece_ir_spec.specs.OperatorViews.{operator_views};
ghost use Rattle.rewrite_rules.specs.LivingUnfoldings.{living_by_views};

use crate::Rule;
use crate::table_view::{one, one_view};
use crate::unfolded_piece::unfolded;
use crate::view::computed;
use cond_expr::Expr;
use piece_ir::{Piece, TableViews};
use prima_base::{Name, NoMemory, OpKind};
use schema_catalog::Schema;
use smo_ops_types::Op;
use std::alloc::Global;

/// The rule of ADD COLUMN: the expression stands for the new column, in the outputs and in the
/// condition.
#[derive(Drop)]
pub struct AddColumnRule;

/// The made table is the old one, with the expression in place of the new column.
pub(crate) fn views(
    alloc: Global,
    column: &Name,
    expr: &Expr,
    table: &Name,
) -> Result<Vec<TableViews>, NoMemory>
    ensures { (tables : Tables)
        → IfOk result (λ v. all_views_of v.items
        ≡ operator_views tables (add_column column.now (tree expr.now) table.now)) }
{
    let rows = computed(alloc, table, column, expr.copy(alloc)?)?;
    one(alloc, one_view(alloc, table, rows)?)
}

impl Rule for AddColumnRule {
    ghost handles = { λ _. Handled };

    ghost answers = { λ _. living_by_views operator_views };

    #[tactic(auto, using(crate::proofs::RuleLaw::valid))]
    fn kind(&self) -> OpKind {
        OpKind::AddColumn
    }

    fn rewrite(
        &self,
        alloc: Global,
        op: &Op,
        before: &Schema,
        piece: &Piece,
    ) -> Result<Vec<Piece>, NoMemory> {
        unfolded(alloc, op, before, piece)
    }
}
