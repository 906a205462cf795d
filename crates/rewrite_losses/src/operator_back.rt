ghost use Rattle.std.specs.Prelude.{◌≡◌, OnOk, None};
ghost use Rattle.smo_ops_types.specs.Operators.{operator_of, operators_of, evolution_of};
ghost use Rattle.smo_ops_types.specs.Operators.{evolutions_of};
ghost use Rattle.smo_ops_spec.specs.After.{op_fault, schema_after, IsValid, HaveFewNodes};
ghost use Rattle.smo_ops_spec.specs.Evolutions.{AllOperatorsAccepted};
ghost use Rattle.smo_ops_versions_spec.specs.TableColumns.{HaveColumns};
ghost use Rattle.smo_ops_spec.specs.WaysBack.{way_back_over};
ghost use Rattle.smo_ops_versions_spec.specs.Ways.{step_back, back_over};
ghost use Rattle.smo_ops_versions_spec.specs.Steps.{carrying_each, taken};
ghost use Rattle.smo_ops_versions_spec.specs.LostNames.{losses_stepped};
ghost use Rattle.rewrite_losses.specs.TableLosses.{IsByInverse};

use crate::losses::Losses;
use crate::no_way::{lose_filled, lose_undone};
use crate::operator::lose_over;
use prima_base::{ColType, NoMemory};
use schema_catalog::Schema;
use smo_ops_columns::type_in;
use smo_ops_operators::{derived, schema_after};
use smo_ops_types::Op;
use std::alloc::Global;

// Back over an operator by its derived inverse.
fn lose_inverse(
    alloc: Global,
    loss: (u32, u32),
    before: &Schema,
    after: &Schema,
    op: &Op,
    losses: &mut Losses,
) -> Result<(), NoMemory>
    requires valid { IsValid before.now }
    requires columns { HaveColumns before.now }
    requires accepted { op_fault before.now (operator_of op.now) ≡ None }
    requires after { after.now ≡ schema_after before.now (operator_of op.now) }
    requires inverse { IsByInverse (way_back_over before.now (operator_of op.now)) }
    ensures { OnOk result (losses.new
        ≡ losses_stepped
        (step_back loss before.now (operator_of op.now)) losses.old) }
{
    match derived(alloc, op, before)? {
        Some(back) => lose_over(alloc, after, before, &back, losses),
        None => Ok(()),
    }
}

/// Back over one accepted operator for which no inverse is named.
pub(crate) fn lose_one(
    alloc: Global,
    loss: (u32, u32),
    before: &Schema,
    after: &Schema,
    op: &Op,
    losses: &mut Losses,
) -> Result<(), NoMemory>
    requires valid { IsValid before.now }
    requires columns { HaveColumns before.now }
    requires accepted { op_fault before.now (operator_of op.now) ≡ None }
    requires after { after.now ≡ schema_after before.now (operator_of op.now) }
    ensures { OnOk result (losses.new
        ≡ losses_stepped
        (step_back loss before.now (operator_of op.now)) losses.old) }
{
    match op {
        Op::DropColumn { column, table } => {
            let kind = type_in(before.columns_of(table), column).unwrap_or(ColType::Int);
            lose_filled(alloc, loss, table, column, kind, losses)
        }
        Op::DropTable { .. }
        | Op::MergeTable { .. }
        | Op::DecomposeTable { .. }
        | Op::JoinTable { .. } => lose_undone(alloc, loss, op, losses),
        Op::Nop
        | Op::CreateTable { .. }
        | Op::RenameTable { .. }
        | Op::CopyTable { .. }
        | Op::PartitionTable { .. }
        | Op::AddColumn { .. }
        | Op::RenameColumn { .. } => lose_inverse(alloc, loss, before, after, op, losses),
    }
}

// Over operators one after the other.
fn lose_over_each(
    alloc: Global,
    tables: &Schema,
    ops: &[Op],
    losses: &mut Losses,
) -> Result<(), NoMemory>
    requires accepted { AllOperatorsAccepted tables.now (operators_of ops.now) }
    requires few { HaveFewNodes (operators_of ops.now) }
    ensures { OnOk result (losses.new ≡ taken losses_stepped
        (carrying_each tables.now (operators_of ops.now)) losses.old) }
{
    match ops {
        [] => Ok(()),
        [op, rest @ ..] => {
            let next = schema_after(alloc, tables, op)?;
            lose_over(alloc, tables, &next, op, losses)?;
            lose_over_each(alloc, &next, rest, losses)
        }
    }
}

/// Back over the operator of version `k`, by its inverse or with none named.
pub(crate) fn lose_back(
    alloc: Global,
    k: u32,
    before: &Schema,
    after: &Schema,
    op: &Op,
    inverse: &[Op],
    losses: &mut Losses,
) -> Result<(), NoMemory>
    requires valid { IsValid before.now }
    requires columns { HaveColumns before.now }
    requires accepted { op_fault before.now (operator_of op.now) ≡ None }
    requires after { after.now ≡ schema_after before.now (operator_of op.now) }
    requires inverse { AllOperatorsAccepted after.now (operators_of inverse.now) }
    requires few { HaveFewNodes (operators_of inverse.now) }
    ensures { OnOk result (losses.new ≡ taken losses_stepped (back_over k before.now
        (evolution_of op.now) after.now (evolutions_of inverse.now)) losses.old) }
{
    match inverse {
        [] => lose_one(alloc, (k, 1), before, after, op, losses),
        [_, ..] => lose_over_each(alloc, after, inverse, losses),
    }
}
