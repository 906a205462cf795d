ghost use Rattle.std.specs.Prelude.{◌≡◌, IfOk};
ghost use Rattle.std.specs.Option.{option_copied};
ghost use Rattle.smo_ops_types.specs.Operators.{operator_of};
ghost use Rattle.smo_ops_spec.specs.Touching.{these_names, made_of as inputs_of};
ghost use Rattle.smo_ops_spec.specs.Losses.{first_loss};
ghost use Rattle.smo_ops_spec.specs.Making.{common_names};
ghost use Rattle.smo_ops_versions_spec.specs.ColumnLosses.{OfColumns, table_loss, gathered};
ghost use Rattle.smo_ops_versions_spec.specs.LostNames.{rows_lost, made_loss, made_column_loss};
ghost use Rattle.rewrite_losses.specs.TableLosses.{loss_in_tables};

use crate::losses::Losses;
use crate::named_column::{column_loss, cond_loss, earlier, expr_loss};
use crate::table_loss::TableLoss;
use prima_base::{ColType, Name, NoMemory};
use schema_catalog::Schema;
use smo_ops_columns::has_name;
use smo_ops_operators::{Made, made_of};
use smo_ops_types::Op;
use std::alloc::Global;

// The loss of the first of the tables that is lost itself.
fn first_of(losses: &Losses, tables: Made<'_>) -> Option<(u32, u32)>
    ensures { result ≡ first_loss (table_loss losses.now)
        (these_names (option_copied tables.entry.first) (option_copied tables.entry.second)) }
{
    let Some(first) = tables.first else {
        return None;
    };
    if let Some(loss) = losses.table(first) {
        return Some(loss);
    }
    let Some(second) = tables.second else {
        return None;
    };
    losses.table(second)
}

// The loss of the first column that the others have too and that is lost.
fn common_loss(
    losses: &Losses,
    tables: Made<'_>,
    columns: &[(Name, ColType)],
    others: &[(Name, ColType)],
) -> Option<(u32, u32)>
    ensures { result ≡ first_loss (loss_in_tables losses.now
        (these_names (option_copied tables.entry.first) (option_copied tables.entry.second)))
        (common_names columns.now others.now) }
{
    let mut loss = None;
    for (name, _) in columns {
        if has_name(others, name) {
            loss = earlier(loss, column_loss(losses, tables, name));
        }
    }
    loss
}

// The loss by which the rows that the operator makes are not told.
fn rows_lost(before: &Schema, op: &Op, losses: &Losses) -> Option<(u32, u32)>
    ensures { result ≡ rows_lost before.now (operator_of op.now) losses.now }
{
    match op {
        Op::PartitionTable { cond, .. } => cond_loss(losses, made_of(op), cond),
        Op::JoinTable {
            left,
            right,
            cond,
            ..
        } => earlier(
            common_loss(
                losses,
                made_of(op),
                before.columns_of(left),
                before.columns_of(right),
            ),
            cond_loss(losses, made_of(op), cond),
        ),
        _ => None,
    }
}

/// The loss of each table that the operator makes; none where it is not lost itself.
pub(crate) fn made_loss(before: &Schema, op: &Op, losses: &Losses) -> Option<(u32, u32)>
    ensures { result ≡ made_loss before.now (operator_of op.now) losses.now }
{
    earlier(first_of(losses, made_of(op)), rows_lost(before, op, losses))
}

// The loss of a column of a made table.
fn made_column_loss(op: &Op, losses: &Losses, name: &Name) -> Option<(u32, u32)>
    ensures { result ≡ made_column_loss (operator_of op.now) losses.now name.now }
{
    match op {
        Op::AddColumn { column, expr, .. } => {
            if column == name {
                expr_loss(losses, made_of(op), expr)
            } else {
                column_loss(losses, made_of(op), name)
            }
        }
        Op::RenameColumn { column, into, .. } => {
            if into == name {
                column_loss(losses, made_of(op), column)
            } else {
                column_loss(losses, made_of(op), name)
            }
        }
        _ => column_loss(losses, made_of(op), name),
    }
}

/// The losses of these columns of a made table.
pub(crate) fn columns_lost(
    alloc: Global,
    op: &Op,
    losses: &Losses,
    columns: &[(Name, ColType)],
) -> Result<TableLoss, NoMemory>
    ensures { IfOk result (λ lost. lost ≡ OfColumns (gathered columns.now
        (made_column_loss (operator_of op.now) losses.now))) }
{
    match columns {
        [] => Ok(TableLoss::none(alloc)),
        [column, rest @ ..] => {
            let mut lost = columns_lost(alloc, op, losses, rest)?;
            if let Some(loss) = made_column_loss(op, losses, &column.0) {
                lost.lose(&column.0, loss)?;
            }
            Ok(lost)
        }
    }
}
