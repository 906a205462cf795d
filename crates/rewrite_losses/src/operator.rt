ghost use Rattle.std.specs.Prelude.{◌≡◌, IfOk, OnOk, None};
ghost use Rattle.std.specs.Option.{option_copied};
ghost use Rattle.smo_ops_types.specs.Operators.{operator_of};
ghost use Rattle.smo_ops_spec.specs.OperatorTable.{line};
ghost use Rattle.smo_ops_spec.specs.Touching.{these_names};
ghost use Rattle.smo_ops_spec.specs.After.{op_fault, schema_after};
ghost use Rattle.smo_ops_versions_spec.specs.LostNames.{made_loss, made_column_loss, made_as, none_lost};
ghost use Rattle.smo_ops_versions_spec.specs.LostNames.{losses_over};
ghost use Rattle.rewrite_losses.specs.TableLosses.{put_names, made_lost_of};

use crate::losses::Losses;
use crate::made_table::{columns_lost, made_loss};
use crate::table_loss::TableLoss;
use prima_base::{ColType, Name, NoMemory};
use schema_catalog::Schema;
use smo_ops_operators::{Made, consumed, made};
use smo_ops_types::Op;
use std::alloc::Global;

/// Nothing is lost of these tables.
pub(crate) fn keep_all(losses: &mut Losses, names: Made<'_>)
    ensures { losses.new ≡ none_lost (these_names (option_copied names.entry.first)
        (option_copied names.entry.second)) losses.old }
{
    if let Some(first) = names.first {
        losses.keep(first);
        if let Some(second) = names.second {
            losses.keep(second);
        }
    }
}

// What is lost of a made table of these columns.
fn made_lost(
    alloc: Global,
    whole: Option<(u32, u32)>,
    op: &Op,
    losses: &Losses,
    columns: &[(Name, ColType)],
) -> Result<TableLoss, NoMemory>
    ensures { IfOk result (λ lost. lost ≡ made_as whole
        (made_column_loss (operator_of op.now) losses.now) columns.now) }
{
    match whole {
        Some(loss) => Ok(TableLoss::of_table(alloc, loss)),
        None => columns_lost(alloc, op, losses, columns),
    }
}

// What is lost of the made table with this name.
fn made_under(
    alloc: Global,
    before: &Schema,
    after: &Schema,
    op: &Op,
    losses: &Losses,
    name: &Name,
) -> Result<TableLoss, NoMemory>
    requires after { after.now ≡ schema_after before.now (operator_of op.now) }
    ensures { IfOk result (λ lost. lost
        ≡ made_lost_of before.now (operator_of op.now) losses.now name.now) }
{
    let whole = made_loss(before, op, losses);
    made_lost(alloc, whole, op, losses, after.columns_of(name))
}

// Over an operator, by the names of the tables that it makes.
fn lose_made(
    alloc: Global,
    before: &Schema,
    after: &Schema,
    op: &Op,
    names: Made<'_>,
    losses: &mut Losses,
) -> Result<(), NoMemory>
    requires after { after.now ≡ schema_after before.now (operator_of op.now) }
    ensures { OnOk result (losses.new
        ≡ put_names (made_lost_of before.now (operator_of op.now) losses.old)
        (these_names (option_copied names.entry.first) (option_copied names.entry.second))
        (none_lost (line before.now (operator_of op.now)).consumed losses.old)) }
{
    let Some(first) = names.first else {
        keep_all(losses, consumed(op));
        return Ok(());
    };
    let lost = made_under(alloc, before, after, op, losses, first)?;
    let Some(second) = names.second else {
        keep_all(losses, consumed(op));
        return losses.put(first, lost);
    };
    let other = made_under(alloc, before, after, op, losses, second)?;
    keep_all(losses, consumed(op));
    losses.put(first, lost)?;
    losses.put(second, other)
}

/// Over one operator that is accepted on the schema `before` and gives the schema `after`.
#[tactic(auto, using(crate::proofs::OverNames::over_by_names))]
pub(crate) fn lose_over(
    alloc: Global,
    before: &Schema,
    after: &Schema,
    op: &Op,
    losses: &mut Losses,
) -> Result<(), NoMemory>
    requires accepted { op_fault before.now (operator_of op.now) ≡ None }
    requires after { after.now ≡ schema_after before.now (operator_of op.now) }
    ensures { OnOk result (losses.new
        ≡ losses_over before.now (operator_of op.now) losses.old) }
{
    lose_made(alloc, before, after, op, made(op), losses)
}
