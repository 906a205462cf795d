ghost use Rattle.std.specs.Prelude.{◌≡◌, OnOk};
ghost use Rattle.smo_ops_spec.specs.Touching.{these_names};
ghost use Rattle.std.specs.Option.{option_copied};
ghost use Rattle.schema_catalog.specs.Tables.{Tables};
ghost use Rattle.smo_ops_types.specs.Operators.{operator_of};
ghost use Rattle.smo_ops_versions_spec.specs.LostNames.{all_lost, losses_undone, losses_filled};
ghost use Rattle.rewrite_losses.specs.TableLosses.{a_column};

use crate::losses::Losses;
use crate::operator::keep_all;
use crate::table_loss::TableLoss;
use prima_base::{ColType, Name, NoMemory};
use smo_ops_operators::{Made, consumed, made};
use smo_ops_types::Op;
use std::alloc::Global;

fn lose_all(
    alloc: Global,
    losses: &mut Losses,
    names: Made<'_>,
    loss: (u32, u32),
) -> Result<(), NoMemory>
    ensures { OnOk result (losses.new ≡ all_lost loss
        (these_names (option_copied names.entry.first) (option_copied names.entry.second))
        losses.old) }
{
    if let Some(first) = names.first {
        losses.put(first, TableLoss::of_table(alloc, loss))?;
        if let Some(second) = names.second {
            losses.put(second, TableLoss::of_table(alloc, loss))?;
        }
    }
    Ok(())
}

/// Back over an operator that has no way back.
pub(crate) fn lose_undone(
    alloc: Global,
    loss: (u32, u32),
    op: &Op,
    losses: &mut Losses,
) -> Result<(), NoMemory>
    ensures { (before : Tables) → OnOk result
        (losses.new ≡ losses_undone loss before (operator_of op.now) losses.old) }
{
    keep_all(losses, made(op));
    lose_all(alloc, losses, consumed(op), loss)
}

/// Over the filling of a column of a table.
pub(crate) fn lose_filled(
    alloc: Global,
    loss: (u32, u32),
    table: &Name,
    name: &Name,
    kind: ColType,
    losses: &mut Losses,
) -> Result<(), NoMemory>
    ensures { OnOk result
        (losses.new ≡ losses_filled loss (a_column table.now name.now kind) losses.old) }
{
    if losses.table(table).is_some() {
        return Ok(());
    }
    losses.lose_column(alloc, table, name, loss)
}
