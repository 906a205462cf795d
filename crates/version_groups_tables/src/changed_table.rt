//! What the changes of a command make of the tables of the newest version.

ghost use Rattle.std.specs.Prelude.{◌≡◌, ◌+◌, ◌-◌, ◌<◌, ◌≤◌, ℕ, length, IfOk, slice_index_or};
ghost use Rattle.std.specs.Prelude.{vec_len, vec_capacity};
ghost use Rattle.relations_spec.specs.Sets.{In, Ascends};
ghost use Rattle.relations_spec.specs.Spans.{forever};
ghost use Rattle.prima_base.specs.Order.{bytes_cmp};
ghost use Rattle.prima_base.specs.Columns.{AreColumns};
ghost use Rattle.smo_ops_types.specs.Changes.{changes_of};
ghost use Rattle.smo_ops.specs.TablePlaces.{StandAt};
ghost use Rattle.smo_ops_spec.specs.Effects.{gained_rows};
ghost use Rattle.version_groups_tables.specs.declared.made_table.MadeTable.{MadeTable as Stored};
ghost use Rattle.version_groups_changes.specs.Changing.{IsChange, borrowed_changes};
ghost use Rattle.version_groups_tables.specs.Becoming.{Leads, IsMade, HasRoom, AreMadeBy};
ghost use Rattle.version_groups_tables.specs.Changing.{IsChangeable, AreChangeable, ArePrepared};
ghost use Rattle.version_groups_tables.specs.Changing.{HaveRoom};
ghost use Rattle.version_groups_tables.specs.Changing.{AreMade, rows_now, rows_after_own};
ghost use Rattle.version_groups_tables.specs.Changing.{all_gained};
ghost use Rattle.version_groups_tables.specs.Changing.{all_lost, gained_by, lost_by, AreOfSchema};
ghost use Rattle.version_groups_tables.specs.Room.{IsSameTable, AreSameTables};
ghost use Rattle.version_groups_tables.specs.Stored.{stored_names};
ghost use Rattle.version_groups_tables.specs.Places.{at_places, AreWithin};

use crate::change_group::changes_by_table;
use crate::made_table::MadeTable;
use history_store::PreparedTable;
use prima_base::{ColType, Name, NoMemory};
use schema_catalog::Schema;
use smo_ops::Change;
use std::alloc::Global;
use version_groups_changes::prepare_table;

/// The changes of tables that are ready, and the rows that they gain and lose.
#[derive(Drop)]
pub struct Changes<'a> {
    pub gained: u64,
    pub lost: u64,
    pub prepared: Vec<Option<PreparedTable<'a>>>,
}

// Makes the changes of one table with these columns ready, where there are any.
fn prepare_one<'a>(
    alloc: Global,
    columns: &[(Name, ColType)],
    table: &mut MadeTable,
    stamp: u64,
    changes: &[&'a Change],
) -> Result<Option<PreparedTable<'a>>, NoMemory>
    requires columns { AreColumns columns.now }
    requires own { table.old.store.columns ≡ columns.now }
    requires changeable { IsChangeable stamp (borrowed_changes changes.now) table.old }
    requires valid { stamp < forever }
    ensures same { IsSameTable table.old table.new }
    ensures leads { IfOk result (λ p. Leads table.new.store stamp
        (rows_after_own stamp (borrowed_changes changes.now) table.old) p) }
    ensures gained { IfOk result (λ p. gained_by p
        ≡ length (gained_rows (rows_now stamp table.old)
        (rows_after_own stamp (borrowed_changes changes.now) table.old))) }
    ensures lost { IfOk result (λ p. lost_by p
        ≡ length (gained_rows (rows_after_own stamp (borrowed_changes changes.now) table.old)
        (rows_now stamp table.old))) }
{
    if changes.is_empty() {
        return Ok(None);
    }
    let prepared = prepare_table(alloc, columns, &mut table.store, stamp, changes)?;
    Ok(Some(prepared))
}

// The rows that a change gains.
fn gained_by(change: &Option<PreparedTable<'_>>) -> u64
    ensures { result ≡ gained_by change.now }
{
    match change {
        None => 0,
        Some(prepared) => prepared.gained(),
    }
}

// The rows that a change loses.
fn lost_by(change: &Option<PreparedTable<'_>>) -> u64
    ensures { result ≡ lost_by change.now }
{
    match change {
        None => 0,
        Some(prepared) => prepared.lost(),
    }
}

// The sum of two counts. A change has fewer than 2^64 rows: more are refused as out of memory.
fn sum(a: u64, b: u64) -> Result<u64, NoMemory>
    ensures { IfOk result (λ n. n ≡ a + b) }
{
    match a.checked_add(b) {
        Some(n) => Ok(n),
        None => Err(NoMemory),
    }
}

/// Makes the changes of each table at these places ready, from the stamp on, and all the room that
/// installing them needs. The tables are those of the schema, and of each change it is told where
/// its table stands among them. The changes are looked through once, to group them by table, and
/// only tables that a change is of are looked at. The one error is `NoMemory`, where memory runs
/// out. What the tables stand for stays as it is.
pub fn prepare_tables<'a>(
    alloc: Global,
    schema: &Schema,
    tables: &mut Vec<MadeTable>,
    places: &[usize],
    stamp: u64,
    changes: &'a [Change],
    of_changes: &[usize],
) -> Result<Changes<'a>, NoMemory>
    requires there { AreWithin places.now (length tables.old.items) }
    requires ordered { Ascends bytes_cmp (stored_names (at_places tables.old.items places.now)) }
    requires schema { AreOfSchema schema.now (at_places tables.old.items places.now) }
    requires changes { StandAt schema.now (changes_of changes.now) of_changes.now }
    requires changeable { AreChangeable stamp (changes_of changes.now)
        (at_places tables.old.items places.now) }
    requires valid { stamp < forever }
    ensures same { AreSameTables tables.old.items tables.new.items }
    ensures room { vec_capacity tables.old - vec_len tables.old ≤ vec_capacity tables.new - vec_len
        tables.new }
    ensures ready { IfOk result (λ c. ArePrepared stamp (changes_of changes.now)
        (at_places tables.new.items places.now) c.prepared.items) }
    ensures gained { IfOk result (λ c. c.gained
        ≡ all_gained stamp (changes_of changes.now) (at_places tables.old.items places.now)) }
    ensures lost { IfOk result (λ c. c.lost ≡ all_lost stamp (changes_of changes.now)
        (at_places tables.old.items places.now)) }
{
    let groups = changes_by_table(alloc, schema, changes, of_changes)?;
    let mut prepared = Vec::with_capacity(alloc, places.len())?;
    let mut gained = 0;
    let mut lost = 0;
    for i in 0..places.len() {
        let columns = schema.at(i).columns();
        let change = prepare_one(alloc, columns, &mut tables[places[i]], stamp, &groups[i])?;
        gained = sum(gained, gained_by(&change))?;
        lost = sum(lost, lost_by(&change))?;
        prepared.push(change)?;
    }
    Ok(Changes {
        gained,
        lost,
        prepared,
    })
}

// Makes the change of one table. It takes no memory.
fn install_one(table: &mut MadeTable, change: Option<PreparedTable<'_>>)
    requires { HasRoom table.old.store change }
    ensures { IsMade table.old change.entry table.new }
{
    match change {
        None => {}
        Some(prepared) => table.store.install(prepared),
    }
}

/// Makes the changes that are ready of the tables at these places. It takes no memory.
pub fn install_tables(
    tables: &mut Vec<MadeTable>,
    places: &[usize],
    prepared: Vec<Option<PreparedTable<'_>>>,
)
    requires there { AreWithin places.now (length tables.old.items) }
    requires ordered { Ascends bytes_cmp (stored_names (at_places tables.old.items places.now)) }
    requires room { HaveRoom (at_places tables.old.items places.now) prepared.items }
    ensures made { AreMade (at_places tables.old.items places.now) prepared.entry.items
        (at_places tables.new.items places.now) }
    ensures each { AreMadeBy prepared.entry.items tables.old.items tables.new.items }
    ensures others { (p : ℕ) → (d : Stored) → (In p places.now → ⊥)
        → slice_index_or tables.new.items p d ≡ slice_index_or tables.old.items p d }
{
    let mut i = 0;
    for change in prepared {
        install_one(&mut tables[places[i]], change);
        i += 1;
    }
}
