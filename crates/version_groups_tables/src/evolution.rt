//! The next version after an operator, and its stored tables.

ghost use Rattle.std.specs.Prelude.{◌≡◌, ◌+◌, ◌<◌, ◌≤◌, ◌++◌, ◌∷◌, [], ℕ, length, false};
ghost use Rattle.std.specs.Prelude.{IfOk, OnOk, None};
ghost use Rattle.std.specs.Option.{option_copied};
ghost use Rattle.std.specs.FinMap.{get};
ghost use Rattle.relations_spec.specs.Sets.{Ascends};
ghost use Rattle.relations_spec.specs.Spans.{forever};
ghost use Rattle.prima_base.specs.Order.{bytes_cmp};
ghost use Rattle.prima_base.specs.Columns.{AreColumns, IsRelation};
ghost use Rattle.schema_catalog.specs.Databases.{Database, IsDatabase};
ghost use Rattle.history_store.specs.Store.{AllBefore};
ghost use Rattle.smo_ops_types.specs.Operators.{operator_of, evolution_of, evolutions_of};
ghost use Rattle.smo_ops_spec.specs.After.{op_fault, migrate, IsValid};
ghost use Rattle.smo_ops_spec.specs.Evolutions.{schema_after_each, evolution_fault};
ghost use Rattle.smo_ops_spec.specs.Effects.{rows_under};
ghost use Rattle.smo_ops_types.specs.Commands.{version_of};
ghost use Rattle.smo_ops_spec.specs.OperatorTable.{line, made_names};
ghost use Rattle.smo_ops_spec.specs.Touching.{makes};
ghost use Rattle.smo_maps.specs.Carrying.{Has};
ghost use Rattle.smo_ops_spec.specs.OneRow.{Relation};
ghost use Rattle.version_groups_tables.specs.Stored.{stored_as, stored_names};
ghost use Rattle.version_groups_tables.specs.Places.{at_places, AreWithin};
ghost use Rattle.version_groups_tables.specs.Becoming.{Begins};
ghost use Rattle.version_groups_tables.specs.Beginning.{BeginsWith};
ghost use Rattle.version_groups_tables.specs.NewestTables.{AreStored, is_name, is_made, next_rows};
ghost use Rattle.version_groups_tables.specs.NewestTables.{FitNext, IsStoredBefore, OthersStay};
ghost use Rattle.version_groups_tables.specs.MadeRows.{made_rows};
ghost use Rattle.version_groups_tables.specs.Evolving.{AreEarlier, rows_named, AreNext};
ghost use Rattle.version_groups_tables.specs.Evolving.{IsNextTable};
ghost use Rattle.version_groups_tables.specs.Evolving.{IsBegun, Comes, IsEvolved};

use crate::made_table::{MadeTable, find_stored, kept_table};
use history_store::StoredTable;
use prima_base::{Name, NoMemory, Row, Steps};
use prima_base_counter::fresh_steps;
use schema_catalog::{Schema, Table};
use smo_maps::{Carried, carry};
use smo_ops::{Made, Op, Version, made, made_of, next_schema_is_valid};
use std::alloc::Global;
use std::marker::Brand;
use std::sync::ledger::{Blank, Ledger};

/// Tables that begin, and the places of a version's own among all that are stored and those.
#[derive(Drop)]
pub struct NextTables {
    pub begun: Vec<MadeTable>,
    pub places: Vec<usize>,
}

// The rows that are stored under the name now; none where there is no such table. Each row is one
// step.
fn current_rows<L: Ledger>(
    alloc: Global,
    tables: &[MadeTable],
    places: &[usize],
    name: Option<&Name>,
    steps: &mut Steps<L>,
) -> Result<Vec<Row>, NoMemory>
    ensures { (stamp : ℕ) → stamp < forever → AreEarlier stamp (at_places tables.now places.now)
        → IfOk result (λ rows. rows.items ≡ rows_named stamp (option_copied name.entry)
        (at_places tables.now places.now)) }
{
    let Some(name) = name else {
        return Ok(Vec::new(alloc));
    };
    match find_stored(tables, places, name) {
        Some(store) => store.current(steps),
        None => Ok(Vec::new(alloc)),
    }
}

// A table with these rows from the stamp on, whose lifeline begins with a version.
fn begin_table(
    alloc: Global,
    version: u32,
    table: &Table,
    stamp: u64,
    rows: &[Row],
) -> Result<MadeTable, NoMemory>
    requires valid { stamp < forever }
    requires relation { IsRelation table.now.1 rows.now }
    ensures begins { IfOk result (λ t. Begins table.now.1 stamp rows.now t.store) }
    ensures size { IfOk result (λ t. BeginsWith version stamp (λ name. rows.now) table.now t) }
{
    Ok(MadeTable {
        name: table.name().copy()?,
        first: version,
        last: None,
        store: StoredTable::new(alloc, table.columns(), stamp, rows)?,
    })
}

// Whether the name is this one.
fn is_name(named: Option<&Name>, name: &Name) -> bool
    ensures { result ≡ is_name (option_copied named.entry) name.now }
{
    match named {
        Some(named) => named == name,
        None => false,
    }
}

/// The place of a table that begins with a version, after all that are stored and those that have
/// begun. The one error is `NoMemory`, where memory runs out.
pub(crate) fn put_begun(
    stored: &[MadeTable],
    table: MadeTable,
    begun: &mut Vec<MadeTable>,
) -> Result<usize, NoMemory>
    ensures place { IfOk result (λ p. p ≡ length stored.now + length begun.old.items) }
    ensures grown { OnOk result (begun.new.items ≡ begun.old.items ++ table ∷ []) }
    ensures there { IfOk result (λ p. p < length stored.now + length begun.new.items) }
{
    let place = stored.len() + begun.len();
    begun.push(table)?;
    Ok(place)
}

// A new table begins with a version, after those that have begun.
fn begin_after(
    alloc: Global,
    stored: &[MadeTable],
    version: u32,
    table: &Table,
    stamp: u64,
    rows: &[Row],
    begun: &mut Vec<MadeTable>,
) -> Result<usize, NoMemory>
    requires valid { stamp < forever }
    requires relation { IsRelation table.now.1 rows.now }
    ensures next { IfOk result (λ p. IsNextTable stored.now begun.old.items begun.new.items p
        table.now.0 (Begins table.now.1 stamp rows.now)) }
    ensures begun { IfOk result (λ p. IsBegun stored.now begun.old.items begun.new.items p
        (BeginsWith version stamp (λ name. rows.now) table.now)) }
    ensures there { IfOk result (λ p. p < length stored.now + length begun.new.items) }
{
    let made = begin_table(alloc, version, table, stamp, rows)?;
    let place = put_begun(stored, made, begun)?;
    Ok(place)
}

// The place of a table of the next version: a new one begins with the rows that were made for it,
// and a table that is not made goes on.
fn next_place(
    alloc: Global,
    tables: &[MadeTable],
    places: &[usize],
    names: Made<'_>,
    rows: &Carried,
    version: u32,
    table: &Table,
    stamp: u64,
    begun: &mut Vec<MadeTable>,
) -> Result<usize, NoMemory>
    requires valid { stamp < forever }
    requires relation { IsRelation table.now.1
        (next_rows (made_rows names rows.now) stamp (at_places tables.now places.now) table.now.0) }
    requires others { is_name (option_copied names.first) table.now.0 ≡ false
        → is_name (option_copied names.second) table.now.0 ≡ false
        → IsStoredBefore stamp table.now.1
        (stored_as table.now.0 (at_places tables.now places.now)) }
    ensures next { IfOk result (λ p. IsNextTable tables.now begun.old.items begun.new.items p
        table.now.0
        (Begins table.now.1 stamp (next_rows (made_rows names.entry rows.now) stamp
        (at_places tables.now places.now) table.now.0))) }
    ensures comes { IfOk result (λ p. Comes (is_made (made_rows names.entry rows.now) table.now.0)
        tables.now begun.old.items begun.new.items places.now p table.now.0
        (BeginsWith version stamp (λ name. next_rows (made_rows names.entry rows.now) stamp
        (at_places tables.now places.now) table.now.0) table.now)) }
    ensures there { IfOk result (λ p. p < length tables.now + length begun.new.items) }
{
    if is_name(names.first, table.name()) {
        return begin_after(alloc, tables, version, table, stamp, &rows.first, begun);
    }
    match kept_table(
        tables,
        places,
        table.name(),
        is_name(names.second, table.name()),
    ) {
        Some((place, _)) => Ok(place),
        // What is not made is stored at one of these places (`others`), so this is the second.
        None => begin_after(alloc, tables, version, table, stamp, &rows.second, begun),
    }
}

// The tables of the next version, in the order of their names: those that are made begin, and the
// others go on.
fn next_tables(
    alloc: Global,
    version: u32,
    next: &Schema,
    tables: &[MadeTable],
    places: &[usize],
    names: Made<'_>,
    rows: &Carried,
    stamp: u64,
) -> Result<NextTables, NoMemory>
    requires valid { stamp < forever }
    requires schema { IsValid next.now }
    requires there { AreWithin places.now (length tables.now) }
    requires ordered { Ascends bytes_cmp (stored_names (at_places tables.now places.now)) }
    requires relations { FitNext next.now (made_rows names rows.now) stamp
        (at_places tables.now places.now) }
    requires others { OthersStay next.now (made_rows names rows.now) stamp
        (at_places tables.now places.now) }
    ensures { IfOk result (λ t. AreNext tables.now places.now version stamp
        (is_made (made_rows names.entry rows.now))
        (next_rows (made_rows names.entry rows.now) stamp (at_places tables.now places.now))
        next.now t.begun.items t.places.items) }
{
    let mut begun = Vec::new(alloc);
    let mut own = Vec::with_capacity(alloc, next.len())?;
    for i in 0..next.len() {
        let table = next.at(i);
        let place = next_place(
            alloc, tables, places, names, rows, version, table, stamp, &mut begun,
        )?;
        own.push(place)?;
    }
    Ok(NextTables { begun, places: own })
}

// The rows that the operator makes of those that are stored now. What is read for it is counted by
// a counter of the ledger, which nobody asks.
fn migrate_rows<L: Ledger>(
    alloc: Global,
    before: &Schema,
    tables: &[MadeTable],
    places: &[usize],
    op: &Op,
    blank: Blank,
) -> Result<Carried, NoMemory>
    requires schema { IsValid before.now }
    requires accepted { op_fault before.now (operator_of op.now) ≡ None }
    requires stored { (stamp : ℕ) × (stamp < forever) × (database : Database)
        × IsDatabase before.now database × AreStored before.now database stamp
        (at_places tables.now places.now) }
    requires name { blank.name ≡ L.name }
    requires parts { blank.parts ≡ L.parts }
    requires some { 0 < blank.parts }
    ensures { (stamp : ℕ) → stamp < forever → (database : Database) → IsDatabase before.now database
        → AreStored before.now database stamp (at_places tables.now places.now)
        → IfOk result (λ c. Has (made_names (line before.now (operator_of op.now)).made)
        (migrate before.now (operator_of op.now) database) c.first.items c.second.items) }
{
    let given = made_of(op);
    let mut steps: Steps<L> = fresh_steps(blank);
    let first = current_rows(alloc, tables, places, given.first, &mut steps)?;
    let second = current_rows(alloc, tables, places, given.second, &mut steps)?;
    carry(alloc, op, before, &first, &second)
}

/// The stored tables of the version, which has this number, and which its operator makes of this
/// schema: the made ones with the rows that are carried over the operator, whose lifelines begin
/// with it, the others as they stand. It costs a copy of the operator's inputs, and of what it
/// makes. The one error is `NoMemory`, where memory runs out.
pub fn begin_version(
    alloc: Global,
    number: u32,
    before: &Schema,
    tables: &[MadeTable],
    places: &[usize],
    version: &Version,
) -> Result<NextTables, NoMemory>
    requires schema { IsValid before.now }
    requires accepted { evolution_fault before.now (evolution_of version.now.op) ≡ None }
    requires next { version.now.schema
        ≡ schema_after_each before.now (evolution_of version.now.op) }
    requires there { AreWithin places.now (length tables.now) }
    requires ordered { Ascends bytes_cmp (stored_names (at_places tables.now places.now)) }
    requires valid { version.now.stamp < forever }
    requires stored { (database : Database) × IsDatabase before.now database
        × AreStored before.now database version.now.stamp (at_places tables.now places.now) }
    ensures { (database : Database) → IsDatabase before.now database
        → AreStored before.now database version.now.stamp (at_places tables.now places.now)
        → IfOk result (λ t. IsEvolved tables.now places.now number before.now database
        version.now.stamp (evolution_of version.now.op) (evolutions_of version.now.inverse.items)
        (version_of version.now) t.begun.items t.places.items) }
{
    next_schema_is_valid();
    let rows = migrate_rows::<Brand>(alloc, before, tables, places, &version.op, Blank::new(1))?;
    next_tables(
        alloc,
        number,
        &version.schema,
        tables,
        places,
        made(&version.op),
        &rows,
        version.stamp,
    )
}
