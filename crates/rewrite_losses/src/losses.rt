ghost use Rattle.std.specs.Prelude.{◌≡◌, OnOk, None, Some};
ghost use Rattle.std.specs.FinMap as map;
ghost use Rattle.smo_ops_versions_spec.specs.ColumnLosses.{OfColumns, whole_loss, lost_columns, table_loss};
ghost use Rattle.smo_ops_versions_spec.specs.ColumnLosses.{column_loss};

use crate::table_loss::TableLoss;
use prima_base::{Name, NoMemory};
use std::alloc::Global;
use std::collections::BTreeMap;
use std::marker::Model;

/// What is lost of each table, by its name.
#[derive(Drop)]
pub(crate) struct Losses {
    lost: BTreeMap<Name, TableLoss>,
}

impl Model for Losses {
    ghost use Rattle.std.specs.FinMap.{from_entries, code};
    ghost use Rattle.std.specs.Coded.{coded_ℕ, coded_list};
    ghost use Rattle.smo_ops_versions_spec.specs.ColumnLosses.{Losses as Lost};
    ghost use Rattle.rewrite_losses.specs.TableLosses.{loss_code};

    ghost Value = { Lost };

    ghost coded = { code (coded_list coded_ℕ) loss_code };

    ghost view = { λ l. from_entries l.lost.entries };
}

impl Losses {
    /// Nothing is lost. It takes no memory.
    pub(crate) fn new(alloc: Global) -> Losses
        ensures { result ≡ map.empty }
    {
        Losses {
            lost: BTreeMap::new(alloc),
        }
    }

    /// The loss of the table with this name.
    pub(crate) fn table(&self, name: &Name) -> Option<(u32, u32)>
        ensures { result ≡ table_loss self.now name.now }
    {
        match self.lost.get(name) {
            Some(lost) => lost.whole(),
            None => None,
        }
    }

    /// The loss of a column of the table with this name.
    pub(crate) fn column(&self, table: &Name, name: &Name) -> Option<(u32, u32)>
        ensures { result ≡ column_loss self.now table.now name.now }
    {
        match self.lost.get(table) {
            Some(lost) => lost.column(name),
            None => None,
        }
    }

    /// Puts what is lost of a table.
    pub(crate) fn put(&mut self, name: &Name, lost: TableLoss) -> Result<(), NoMemory>
        ensures { OnOk result (self.new ≡ map.insert self.old name.now lost) }
    {
        self.lost.insert(name.copy()?, lost)?;
        Ok(())
    }

    /// Nothing is lost of the table.
    pub(crate) fn keep(&mut self, name: &Name)
        ensures { self.new ≡ map.remove self.old name.now }
    {
        let _lost = self.lost.remove(name);
    }

    /// The column of a table that is not lost itself is lost.
    pub(crate) fn lose_column(
        &mut self,
        alloc: Global,
        table: &Name,
        name: &Name,
        loss: (u32, u32),
    ) -> Result<(), NoMemory>
        requires kept { table_loss self.now table.now ≡ None }
        ensures { OnOk result (self.new ≡ map.insert self.old table.now (OfColumns
            (map.insert (lost_columns (map.get self.old table.now)) name.now loss))) }
    {
        let mut lost = self.take(alloc, table);
        lost.lose(name, loss)?;
        self.put(table, lost)
    }

    // What is lost of the table, taken out.
    fn take(&mut self, alloc: Global, table: &Name) -> TableLoss
        ensures kept { self.new ≡ map.remove self.old table.now }
        ensures whole { whole_loss (Some result) ≡ table_loss self.old table.now }
        ensures columns { lost_columns (Some result) ≡ lost_columns (map.get self.old table.now) }
    {
        match self.lost.remove(table) {
            Some(lost) => lost,
            None => TableLoss::none(alloc),
        }
    }
}
