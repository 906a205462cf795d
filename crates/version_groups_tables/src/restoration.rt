//! The tables of a version that is restored, of what is stored over each lifeline.

ghost use Rattle.std.specs.Prelude.{◌≡◌, ◌+◌, ◌<◌, ◌++◌, ◌∷◌, [], ℕ, List, length, true, false};
ghost use Rattle.std.specs.Prelude.{IfOk, OnOk, Some};
ghost use Rattle.std.specs.List.{filter};
ghost use Rattle.std.specs.FinMap.{entries};
ghost use Rattle.std.specs.Vec.Iter.{into_iter_items};
ghost use Rattle.relations_spec.specs.Sets.{Ascends};
ghost use Rattle.prima_base.specs.Order.{bytes_cmp};
ghost use Rattle.prima_base.specs.Columns.{Column};
ghost use Rattle.smo_ops_spec.specs.After.{IsValid};
ghost use Rattle.smo_ops_operators.specs.Names.{is_one_of};
ghost use Rattle.version_groups_tables.specs.Stored.{stored_as, stored_names};
ghost use Rattle.version_groups_tables.specs.Places.{at_places, AreWithin};
ghost use Rattle.version_groups_tables.specs.Evolving.{ComeNext, IsNextTable, IsBegun, Comes};
ghost use Rattle.version_groups_tables.specs.Restoring.{stores_of, HaveColumns, with_made};
ghost use Rattle.version_groups_tables.specs.Restoring.{BeginsOver};
ghost use Rattle.version_groups_tables.specs.Restoring.{HasColumns, IsStored, OthersAre};

use crate::evolution::{NextTables, put_begun};
use crate::made_table::{MadeTable, kept_table};
use history_store::StoredTable;
use prima_base::{Name, NoMemory};
use schema_catalog::{Schema, Table};
use smo_ops::Made;
use std::alloc::Global;
use std::vec::IntoIter;

// A table that is made begins with a version, over the next of the stores.
fn begin_over(
    stored: &[MadeTable],
    version: u32,
    table: &Table,
    stores: &mut IntoIter<StoredTable>,
    begun: &mut Vec<MadeTable>,
) -> Result<usize, NoMemory>
    requires due { (more : List (List ℕ × List Column))
        × HaveColumns (into_iter_items stores.old) (table.now ∷ more) }
    ensures next { IfOk result (λ p. IsNextTable stored.now begun.old.items begun.new.items p
        table.now.0 (HasColumns table.now.0 table.now.1)) }
    ensures begun { IfOk result (λ p. IsBegun stored.now begun.old.items begun.new.items p
        (BeginsOver version table.now)) }
    ensures there { IfOk result (λ p. p < length stored.now + length begun.new.items) }
    ensures due { (more : List (List ℕ × List Column))
        → HaveColumns (into_iter_items stores.old) (table.now ∷ more)
        → OnOk result (HaveColumns (into_iter_items stores.new) more) }
    ensures taken { OnOk result (stores_of begun.new.items ++ into_iter_items stores.new
        ≡ stores_of begun.old.items ++ into_iter_items stores.old) }
{
    let Some(store) = stores.next() else {
        // There is a store for each table that is made: `due` says that the first that is left is
        // this table's.
        unreachable!();
    };
    let made = MadeTable {
        name: table.name().copy()?,
        first: version,
        last: None,
        store,
    };
    let place = put_begun(stored, made, begun)?;
    Ok(place)
}

// The place of a table of a version: one that is made begins, and any other goes on.
fn restored_place(
    tables: &[MadeTable],
    places: &[usize],
    names: Made<'_>,
    version: u32,
    table: &Table,
    stores: &mut IntoIter<StoredTable>,
    begun: &mut Vec<MadeTable>,
) -> Result<usize, NoMemory>
    requires due { (more : List (List ℕ × List Column))
        × HaveColumns (into_iter_items stores.old)
        (with_made (is_one_of names table.now.0) table.now more) }
    requires others { is_one_of names table.now.0 ≡ false
        → IsStored table.now.1 (stored_as table.now.0 (at_places tables.now places.now)) }
    ensures next { IfOk result (λ p. IsNextTable tables.now begun.old.items begun.new.items p
        table.now.0 (HasColumns table.now.0 table.now.1)) }
    ensures comes { IfOk result (λ p. Comes (is_one_of names.entry table.now.0) tables.now
        begun.old.items begun.new.items places.now p table.now.0 (BeginsOver version table.now)) }
    ensures there { IfOk result (λ p. p < length tables.now + length begun.new.items) }
    ensures due { (more : List (List ℕ × List Column))
        → HaveColumns (into_iter_items stores.old)
        (with_made (is_one_of names.entry table.now.0) table.now more)
        → OnOk result (HaveColumns (into_iter_items stores.new) more) }
    ensures taken { OnOk result (stores_of begun.new.items ++ into_iter_items stores.new
        ≡ stores_of begun.old.items ++ into_iter_items stores.old) }
{
    match kept_table(tables, places, table.name(), names.has(table.name())) {
        Some((place, _)) => Ok(place),
        // What is not made is stored at one of these places (`others`), so this one is made.
        None => begin_over(tables, version, table, stores, begun),
    }
}

/// The tables of a version, in the order of their names: those that are made, which have these
/// names, begin with it over the next of the stores, and the others go on. The one error is
/// `NoMemory`, where memory runs out.
pub fn restored_tables(
    alloc: Global,
    version: u32,
    next: &Schema,
    tables: &[MadeTable],
    places: &[usize],
    names: Made<'_>,
    stores: &mut IntoIter<StoredTable>,
) -> Result<NextTables, NoMemory>
    requires schema { IsValid next.now }
    requires there { AreWithin places.now (length tables.now) }
    requires ordered { Ascends bytes_cmp (stored_names (at_places tables.now places.now)) }
    requires due { HaveColumns (into_iter_items stores.old)
        (filter (λ (e : List ℕ × List Column). is_one_of names e.0) (entries next.now)) }
    requires others { OthersAre next.now (is_one_of names)
        (λ name. stored_as name (at_places tables.now places.now)) }
    ensures next { IfOk result (λ t. ComeNext tables.now places.now (is_one_of names.entry)
        (BeginsOver version) HasColumns next.now t.begun.items t.places.items) }
    ensures taken { IfOk result (λ t. stores_of t.begun.items ++ into_iter_items stores.new
        ≡ into_iter_items stores.old) }
{
    let mut begun = Vec::new(alloc);
    let mut own = Vec::with_capacity(alloc, next.len())?;
    for i in 0..next.len() {
        let table = next.at(i);
        let place = restored_place(tables, places, names, version, table, stores, &mut begun)?;
        own.push(place)?;
    }
    Ok(NextTables { begun, places: own })
}
