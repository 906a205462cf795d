ghost use Rattle.std.specs.Prelude.{◌≡◌, OnOk, None, Some};
ghost use Rattle.std.specs.FinMap as map;
ghost use Rattle.smo_ops_versions_spec.specs.ColumnLosses.{WholeTable, OfColumns, whole_loss, lost_columns};

use prima_base::{Name, NoMemory};
use std::alloc::Global;
use std::collections::BTreeMap;
use std::marker::Model;

/// The loss of a table itself or, where it is not lost itself, those of its columns.
#[derive(Drop)]
pub(crate) struct TableLoss {
    whole: Option<(u32, u32)>,
    columns: BTreeMap<Name, (u32, u32)>,
}

impl Model for TableLoss {
    ghost use Rattle.std.specs.FinMap.{from_entries};
    ghost use Rattle.smo_ops_versions_spec.specs.ColumnLosses.{TableLoss as Shown};
    ghost use Rattle.rewrite_losses.specs.TableLosses.{shown_loss, loss_code};

    ghost Value = { Shown };

    ghost coded = { loss_code };

    ghost view = { λ t. shown_loss t.whole (from_entries t.columns.entries) };
}

impl TableLoss {
    /// The table itself is lost. It takes no memory.
    pub(crate) fn of_table(alloc: Global, loss: (u32, u32)) -> TableLoss
        ensures { result ≡ WholeTable loss }
    {
        TableLoss {
            whole: Some(loss),
            columns: BTreeMap::new(alloc),
        }
    }

    /// Nothing is lost. It takes no memory.
    pub(crate) fn none(alloc: Global) -> TableLoss
        ensures { result ≡ OfColumns map.empty }
    {
        TableLoss {
            whole: None,
            columns: BTreeMap::new(alloc),
        }
    }

    /// The loss of the table itself.
    pub(crate) fn whole(&self) -> Option<(u32, u32)>
        ensures { result ≡ whole_loss (Some self.now) }
    {
        self.whole
    }

    /// The loss of a column; none where the table itself is lost.
    pub(crate) fn column(&self, name: &Name) -> Option<(u32, u32)>
        ensures { result ≡ map.get (lost_columns (Some self.now)) name.now }
    {
        if self.whole.is_some() {
            return None;
        }
        self.columns.get(name).copied()
    }

    /// The column is lost, where the table itself is not.
    pub(crate) fn lose(&mut self, name: &Name, loss: (u32, u32)) -> Result<(), NoMemory>
        requires kept { whole_loss (Some self.now) ≡ None }
        ensures { OnOk result (self.new ≡ OfColumns
            (map.insert (lost_columns (Some self.old)) name.now loss)) }
    {
        self.columns.insert(name.copy()?, loss)?;
        Ok(())
    }
}
