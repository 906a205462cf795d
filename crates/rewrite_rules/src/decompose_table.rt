ghost use Rattle.std.specs.Prelude.{◌≡◌, IfOk, List, ℕ};
ghost use Rattle.prima_base.specs.declared.refusal.OpKind.TheVariants.{DecomposeTable as Handled};
ghost use Rattle.schema_catalog.specs.Tables.{Tables};
ghost use Rattle.smo_ops_types.specs.Operators.{decompose_table};
ghost use Rattle.piece_ir.specs.Shown.{all_views_of};
ghost use Rattle.piece_ir_spec.specs.OperatorViews.{operator_views};
ghost use Rattle.rewrite_rules.specs.LivingUnfoldings.{living_by_views};

use crate::Rule;
use crate::table_view::{one_view, two};
use crate::unfolded_piece::unfolded;
use piece_ir::{Piece, TableViews, View};
use prima_base::{Name, NoMemory, OpKind};
use schema_catalog::Schema;
use smo_ops_types::Op;
use std::alloc::Global;

/// The rule of DECOMPOSE TABLE: each made table is the old one, of which fewer columns are named.
#[derive(Drop)]
pub struct DecomposeTableRule;

/// Each made table is the old one, of which fewer columns are named, whichever they are.
pub(crate) fn views(
    alloc: Global,
    table: &Name,
    left: &Name,
    right: &Name,
) -> Result<Vec<TableViews>, NoMemory>
    ensures { (tables : Tables) → (xs : List (List ℕ)) → (ys : List (List ℕ))
        → IfOk result (λ v. all_views_of v.items
        ≡ operator_views tables (decompose_table table.now left.now xs right.now ys)) }
{
    let first = one_view(alloc, left, View::whole(alloc, table)?)?;
    let second = one_view(alloc, right, View::whole(alloc, table)?)?;
    two(alloc, first, second)
}

impl Rule for DecomposeTableRule {
    ghost handles = { λ _. Handled };

    ghost answers = { λ _. living_by_views operator_views };

    #[tactic(auto, using(crate::proofs::RuleLaw::valid))]
    fn kind(&self) -> OpKind {
        OpKind::DecomposeTable
    }

    fn rewrite(
        &self,
        alloc: Global,
        op: &Op,
        before: &Schema,
        piece: &Piece,
    ) -> Result<Vec<Piece>, NoMemory> {
        unfolded(alloc, op, before, piece)
    }
}
