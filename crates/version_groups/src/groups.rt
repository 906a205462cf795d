use crate::checked_command::CheckedCommand;
use crate::prepared_command::{PreparedCommand, Step};
use crate::size::SizeLine;
use history_store::{PreparedTable, StoredTable};
use prima_base::{Name, NoMemory};
use schema_catalog::Schema;
use smo_ops::{Change, Version, Versions, made};
use std::alloc::Global;
use std::marker::Model;
use std::mem;
use std::vec::IntoIter;
use version_groups_tables::{
    Changes, MadeTable, begin_version, end_consumed, find_table, install_tables, prepare_tables,
    restored_tables,
};

/// The versions of an archive, and for each version its stored tables. A table that no operator
/// makes or consumes is stored once over all its versions.
pub struct Groups {
    alloc: Global,
    // version 0 has no table
    nothing: Schema,
    versions: Versions,
    // in the order of their first versions, and then of their names
    stored: Vec<MadeTable>,
    // the places of the tables of each version before the newest, those of version 0 first; and of
    // the newest: in the order of their names
    earlier: Vec<Vec<usize>>,
    newest: Vec<usize>,
}

// Written out, not derived: each crate above would prove a derived one again.
impl Drop for Groups {
    fn drop(self) {
        let Groups {
            alloc: _alloc,
            nothing: _nothing,
            versions: _versions,
            stored: _stored,
            earlier: _earlier,
            newest: _newest,
        } = self;
    }
}

impl Model for Groups {
    ghost use Rattle.version_groups.specs.Groups.{Kept};
    ghost use Rattle.version_groups.specs.GroupFields.{groups_view, AreGroups};
    ghost use Rattle.smo_ops_types.specs.contracts.version.Version as version_row;
    ghost use Rattle.std.specs.Coded.{codes};

    ghost Value = { Kept };

    ghost coded = { Prim.hlevel (codes, version_row.the_row.coded) };

    ghost view = { groups_view };

    ghost invariant = { AreGroups };
}

ghost use Rattle.std.specs.Prelude.{◌≡◌, ◌-◌, ◌<◌, ◌≤◌, ◌++◌, map, length, slice_index, IfOk, OnOk};
ghost use Rattle.std.specs.Prelude.{None, vec_len, vec_capacity};
ghost use Rattle.smo_ops_types.specs.Commands.{version_of, versions_of};
ghost use Rattle.smo_ops_spec.specs.Past.{no_tables, newest_from, tables_from, begun_at};

// How many of the versions begin at the moment or before it.
fn count_begun(versions: &[Version], moment: u64) -> usize
    ensures { result ≡ length (begun_at moment (map version_of versions.now)) }
{
    let mut count = 0;
    for version in versions {
        if version.stamp <= moment {
            count += 1;
        }
    }
    count
}

// The schema of the newest version.
fn newest_schema<'a>(nothing: &'a Schema, versions: &'a Versions) -> &'a Schema
    ensures { result.now ≡ newest_from nothing.now (versions_of versions.now) }
{
    match versions.list.last() {
        Some(version) => &version.schema,
        None => nothing,
    }
}

// Room for so many more.
fn reserve_more<T: Drop>(list: &mut Vec<T>, count: usize) -> Result<(), NoMemory>
    ensures items { list.new.items ≡ list.old.items }
    ensures spare { vec_capacity list.old - vec_len list.old ≤ vec_capacity list.new - vec_len
        list.new }
    ensures room { OnOk result (count ≤ vec_capacity list.new - vec_len list.new) }
{
    list.reserve(count)?;
    Ok(())
}

// Puts all after the others, for which there is room. It takes no memory.
fn put_after(list: &mut Vec<MadeTable>, more: Vec<MadeTable>)
    requires { length more.items ≤ vec_capacity list.old - vec_len list.old }
    ensures { list.new.items ≡ list.old.items ++ more.items }
{
    for table in more {
        list.push_reserved(table);
    }
}

impl Groups {
    ghost use Rattle.std.specs.Prelude.{◌≡◌, ◌+◌, ◌<◌, ◌≤◌, ◌^◌, ◌++◌, ◌∷◌, [], List, length};
    ghost use Rattle.std.specs.Prelude.{slice_index_or, MatchOption, IfOk, IfSome, OnOk, Some};
    ghost use Rattle.std.specs.Prelude.{None, ℕ};
    ghost use Rattle.std.specs.Option.{option_copied};
    ghost use Rattle.std.specs.Vec.Iter.{into_iter_items};
    ghost use Rattle.relations_spec.specs.Sets.{Ascends};
    ghost use Rattle.relations_spec.specs.Spans.{forever};
    ghost use Rattle.prima_base.specs.Order.{bytes_cmp};
    ghost use Rattle.prima_base.specs.Limits.{max_versions};
    ghost use Rattle.smo_ops_types.specs.Operators.{evolution_of};
    ghost use Rattle.smo_ops_types.specs.Changes.{changes_of};
    ghost use Rattle.smo_ops_types.specs.Commands.{changing, PlainCommand, versions_of};
    ghost use Rattle.smo_ops_spec.specs.Accepts.{command_fault};
    ghost use Rattle.smo_ops_spec.specs.Evolutions.{evolution_fault, schema_after_each};
    ghost use Rattle.smo_ops_spec.specs.After.{IsValid};
    ghost use Rattle.smo_ops_spec.specs.ValidPast.{AreVersions};
    ghost use Rattle.smo_ops_spec.specs.ValidValues.{BodyHolds};
    ghost use Rattle.smo_ops_spec.specs.Past.{Past, beginning, no_tables, tables_from, newest_from};
    ghost use Rattle.smo_ops_spec.specs.Past.{version_at, past_with};
    ghost use Rattle.smo_ops_spec.specs.Past.{newest_tables};
    ghost use Rattle.smo_ops_spec.specs.Sizes.{Size};
    ghost use Rattle.smo_ops.specs.TablePlaces.{StandAt};
    ghost use Rattle.version_groups_tables.specs.Stored.{stored_names};
    ghost use Rattle.version_groups_tables.specs.Places.{at_places, AreWithin};
    ghost use Rattle.version_groups_tables.specs.Changing.{HaveRoom};
    ghost use Rattle.version_groups_tables.specs.Restoring.{stores_of, HaveColumns};
    ghost use Rattle.version_groups.specs.Groups.{versions_in, places_of, stored_at, table_in};
    ghost use Rattle.version_groups.specs.Groups.{newest_group};
    ghost use Rattle.version_groups.specs.Installing.{HasEarlier, HasChanges, HasVersion, ComeWith};
    ghost use Rattle.version_groups.specs.Installing.{HasStep};
    ghost use Rattle.version_groups.specs.Lifelines.{lifelines_of, lifeline_columns, made_tables};
    ghost use Rattle.version_groups.specs.Lifelines.{place_in};
    ghost use Rattle.version_groups.specs.Restoring.{AreRestored, store_columns};
    ghost use Rattle.version_groups.specs.Representation.{Represents};
    ghost use Rattle.version_groups.specs.Sizes.{IsLineOf, KeepsSize};
    ghost use Rattle.version_groups.specs.Room.{IsSame};
    ghost use Rattle.version_groups.specs.Steps.{IsPreparedCommand, IsStep, Prepares, a_command};
    ghost use Rattle.version_groups.specs.Steps.{step_of};
    ghost use Rattle.version_groups.specs.CheckedCommands.{checked_command, IsCommandAccepted};
    ghost use Rattle.version_groups.specs.declared.checked_command.CheckedCommand.TheVariants as found;

    /// Groups in which nothing was accepted: version 0 alone. It takes no memory.
    pub fn new(alloc: Global) -> Groups
        ensures { Represents result beginning }
    {
        Groups {
            alloc,
            nothing: Schema::empty(alloc),
            versions: Versions {
                list: Vec::new(alloc),
            },
            stored: Vec::new(alloc),
            earlier: Vec::new(alloc),
            newest: Vec::new(alloc),
        }
    }

    /// Groups of these versions, and of what is stored over each of their lifelines. The versions
    /// are those of an archive: each is accepted after the one before, and has the tables after its
    /// operator. There is one stored table for each lifeline, by first version and then name, with
    /// its lifeline's columns. The one error is `NoMemory`, where memory runs out.
    ///
    /// For each version it costs a look at its tables, and a search by name among those of the
    /// version before.
    pub fn restore(
        alloc: Global,
        versions: Versions,
        stores: Vec<StoredTable>,
    ) -> Result<Groups, NoMemory>
        requires versions { AreVersions None no_tables (versions_of versions) }
        requires few { length versions.list.items ≤ max_versions }
        requires stores { store_columns stores.items
            ≡ lifeline_columns (lifelines_of (versions_of versions)) }
        ensures versions { IfOk result (λ groups. groups.versions ≡ versions.list.items) }
        ensures stores { IfOk result (λ groups. stores_of groups.stored ≡ stores.items) }
        ensures restored { IfOk result (λ groups. AreRestored groups) }
    {
        let mut groups = Groups::new(alloc);
        let mut left = stores.into_iter();
        for version in versions.list {
            groups.restore_version(version, &mut left)?;
        }
        Ok(groups)
    }

    /// Versions 1 to the newest. It takes no memory.
    pub fn versions(&self) -> &Versions
        ensures { result.now.list.items ≡ self.now.versions }
    {
        &self.versions
    }

    /// The number of the newest version. It takes no memory.
    pub fn newest(&self) -> u32
        ensures { result ≡ length self.now.versions }
    {
        self.versions.list.len() as u32
    }

    /// The number of the version in force at the moment: a version is in force from its own stamp
    /// on, and at `FOREVER` it is the newest. It takes no memory.
    pub fn version_at(&self, moment: u64) -> u32
        ensures number { (past : Past) → past.versions ≡ versions_in self.now
            → result ≡ version_at past moment }
        ensures newest { (past : Past) → Represents self.now past → moment ≡ forever
            → result ≡ length past.versions }
    {
        count_begun(&self.versions.list, moment) as u32
    }

    /// The schema of a version: `None` exactly where there is no such version. It takes no memory.
    pub fn schema(&self, version: u32) -> Option<&Schema>
        ensures { MatchOption result (length self.now.versions < version)
            (λ s. (version ≤ length self.now.versions)
            × (s.now ≡ tables_from no_tables (versions_in self.now) version)) }
    {
        if version > self.newest() {
            return None;
        }
        Some(self.schema_of(version))
    }

    /// The schema of a version that there is. It takes no memory.
    pub fn schema_of(&self, version: u32) -> &Schema
        requires there { version ≤ length self.now.versions }
        ensures { result.now ≡ tables_from no_tables (versions_in self.now) version }
    {
        if version == 0 {
            return &self.nothing;
        }
        &self.versions.list[version as usize - 1].schema
    }

    /// The schema of the newest version. It takes no memory.
    pub fn newest_schema(&self) -> &Schema
        ensures { (past : Past) → Represents self.now past → result.now ≡ newest_tables past }
    {
        newest_schema(&self.nothing, &self.versions)
    }

    /// What is stored of a version's table: `None` exactly where there is no such version, or no
    /// such table in it. It has just the keys and the cells that the past's sizes say of the
    /// table's lifeline, of which each version of the lifeline is one. It takes no memory.
    pub fn table(&self, version: u32, name: &Name) -> Option<&StoredTable>
        ensures stored { option_copied result ≡ table_in self.now version name.now }
        ensures sizes { (past : Past) → (p : ℕ) → (size : Size) → Represents self.now past
            → place_in past.versions version name.now ≡ Some p
            → IfSome result (λ table. KeepsSize (slice_index_or past.sizes p size) table.now) }
    {
        let places = self.places(version)?;
        match find_table(&self.stored, places, name) {
            Some((_, table)) => Some(&table.store),
            None => None,
        }
    }

    // The places of a version's tables among all that are stored, in the order of their names:
    // `None` exactly where there is no such version. It takes no memory.
    fn places(&self, version: u32) -> Option<&[usize]>
        ensures { MatchOption result ((length self.now.versions < version)
            × (places_of self.now version ≡ []))
            (λ places. (version ≤ length self.now.versions)
            × (places.now ≡ places_of self.now version)) }
    {
        let version = version as usize;
        if version == self.earlier.len() {
            return Some(&self.newest);
        }
        match self.earlier.get(version) {
            Some(places) => Some(places),
            None => None,
        }
    }

    /// Where a version's table stands among all that are stored, by the number of its lifeline,
    /// from 0 on: so versions in which a table has one number share what is stored of it. `None`
    /// exactly where there is no such version, or no such table in it. It takes no memory.
    pub fn place(&self, version: u32, name: &Name) -> Option<usize>
        ensures lifeline { result ≡ place_in (versions_in self.now) version name.now }
        ensures stored { MatchOption result (table_in self.now version name.now ≡ None)
            (λ p. stored_at self.now p ≡ table_in self.now version name.now) }
    {
        let places = self.places(version)?;
        match find_table(&self.stored, places, name) {
            Some((place, _)) => Some(place),
            None => None,
        }
    }

    /// The stored tables, each over its lifeline: by first version, and then by name. It takes no
    /// memory.
    pub fn stored(&self) -> &[MadeTable]
        ensures { result.now ≡ self.now.stored }
    {
        &self.stored
    }

    /// How much is stored over a lifeline, by their number from 0 on: they stand by first version,
    /// and then by name. `None` exactly where there are no so many. It takes no memory.
    pub fn size(&self, i: u32) -> Option<SizeLine<'_>>
        ensures { (past : Past) → Represents self.now past
            → MatchOption result (length past.sizes ≤ i) (λ line. (i < length past.sizes)
            × ((s : Size) → IsLineOf (length past.versions) (slice_index_or past.sizes i s)
            line)) }
    {
        let table = self.stored.get(i as usize)?;
        Some(SizeLine {
            table: &table.name,
            first: table.first,
            last: table.last.unwrap_or(self.newest()),
            keys: table.store.keys(),
            cells: table.store.cells(),
        })
    }

    /// Makes a command ready, and all the room that installing it needs. The command was checked,
    /// and is accepted after the past that is shown, which stays as it is; checking found of each
    /// change where its table stands, and of an operator the schema that is after it.
    /// `PreparedCommand` has its stamp; for changes it has the counts of the rows that are gained
    /// and lost, summed over the tables, and for an operator none. The one error is `NoMemory`,
    /// where memory runs out.
    ///
    /// A table that has INSERTs alone costs a search for each row. Any other that the command names
    /// costs for each UPDATE or DELETE a look at the rows between two cuts, by the constants to
    /// which its condition pins the first columns, and a search for each row that is lost or
    /// gained; where more than 64 rows are lost or gained, a copy of the index of its current rows
    /// too. Other tables are not looked at. An operator costs a copy of its inputs, and of the rows
    /// that it makes; other tables go on.
    pub fn prepare<'a>(
        &mut self,
        checked: CheckedCommand<'a>,
    ) -> Result<PreparedCommand<'a>, NoMemory>
        requires { (past : Past) × Represents self.old past × IsCommandAccepted past checked }
        ensures same { IsSame self.old self.new }
        ensures represents { (past : Past) → Represents self.old past → Represents self.new past }
        ensures prepared { (past : Past) → Represents self.old past
            → IsCommandAccepted past checked.entry → IfOk result (λ prepared.
            Prepares self.new past (checked_command checked.entry) prepared) }
    {
        match checked {
            CheckedCommand::Changes {
                stamp,
                changes,
                places,
            } => self.prepare_changes(stamp, changes, &places),
            CheckedCommand::Evolve(version) => self.prepare_version(version),
        }
    }

    /// Applies what was prepared: from the command's stamp on the past has the changed or
    /// carried database, and each earlier moment is as before. Each table of each version before
    /// the one that is then the newest has at the moments at which its version is in force what it
    /// had. Changes are made of the stored tables of the newest version, and an operator ends
    /// lifelines and begins others: each other stored table is the very same. It takes no memory.
    pub fn install(&mut self, prepared: PreparedCommand<'_>)
        requires { (past : Past) × (command : PlainCommand) × Represents self.old past
            × IsPreparedCommand self.old past command prepared }
        ensures represents { (past : Past) → (command : PlainCommand) → Represents self.old past
            → IsPreparedCommand self.old past command prepared.entry
            → Represents self.new (past_with past command) }
        ensures earlier { HasEarlier self.old self.new }
        ensures step { HasStep self.old self.new prepared.entry.step }
    {
        self.install_step(prepared.step);
    }

    // Applies a step of a command that is accepted after the past. It takes no memory.
    fn install_step(&mut self, step: Step<'_>)
        requires { (past : Past) × (command : PlainCommand) × Represents self.old past
            × (command_fault past command ≡ None) × (command.stamp < forever)
            × BodyHolds command.body
            × IsStep self.old past command.stamp command.body (step_of step) }
        ensures represents { (past : Past) → (command : PlainCommand) → Represents self.old past
            → command_fault past command ≡ None → command.stamp < forever
            → BodyHolds command.body → IsStep self.old past command.stamp command.body
            (step_of step.entry) → Represents self.new (past_with past command) }
        ensures earlier { HasEarlier self.old self.new }
        ensures step { HasStep self.old self.new step.entry }
    {
        match step {
            Step::Changed(prepared) => self.install_changes(prepared),
            Step::Evolved(version, begun, places) => self.install_version(version, begun, places),
        }
    }

    // Makes the changes of the newest version's tables. It takes no memory.
    fn install_changes(&mut self, prepared: Vec<Option<PreparedTable<'_>>>)
        requires { HaveRoom (newest_group self.old) prepared.items }
        ensures { HasChanges self.old self.new prepared.entry.items }
    {
        install_tables(&mut self.stored, &self.newest, prepared);
    }

    // Puts the version and the tables that begin with it after the others. The lifelines of the
    // tables that its operator consumes, which are at most two, end with the version before. It
    // takes no memory.
    fn install_version(&mut self, version: Version, begun: Vec<MadeTable>, places: Vec<usize>)
        requires come { ComeWith self.old version begun.items places.items }
        requires there { AreWithin places.items (length self.old.stored + length begun.items) }
        requires ordered { Ascends bytes_cmp (stored_names
            (at_places (self.old.stored ++ begun.items) places.items)) }
        requires room { 1 ≤ self.old.spare }
        requires beginnings { length begun.items ≤ self.old.beginnings }
        requires fits { length self.old.versions + 1 < 2 ^ 32 }
        ensures { HasVersion self.old self.new version begun.items places.items }
    {
        let last = self.versions.list.len() as u32;
        end_consumed(&mut self.stored, &self.newest, &version.op, last);
        put_after(&mut self.stored, begun);
        let before = mem::replace(&mut self.newest, places);
        self.versions.list.push_reserved(version);
        self.earlier.push_reserved(before);
    }

    // Makes changes ready, of each of which it is told where its table stands in the newest schema.
    fn prepare_changes<'a>(
        &mut self,
        stamp: u64,
        changes: &'a [Change],
        places: &[usize],
    ) -> Result<PreparedCommand<'a>, NoMemory>
        requires valid { stamp < forever }
        requires constants { BodyHolds (changing (changes_of changes.now)) }
        requires accepted { (past : Past) × Represents self.old past
            × (command_fault past (a_command stamp (changing (changes_of changes.now))) ≡ None)
            × StandAt (newest_tables past) (changes_of changes.now) places.now }
        ensures same { IsSame self.old self.new }
        ensures prepared { (past : Past) → Represents self.old past
            → command_fault past (a_command stamp (changing (changes_of changes.now))) ≡ None
            → IfOk result (λ prepared. Prepares self.new past
            (a_command stamp (changing (changes_of changes.now))) prepared) }
    {
        let schema = newest_schema(&self.nothing, &self.versions);
        let made = prepare_tables(
            self.alloc,
            schema,
            &mut self.stored,
            &self.newest,
            stamp,
            changes,
            places,
        )?;
        let Changes {
            gained,
            lost,
            prepared,
        } = made;
        Ok(PreparedCommand {
            stamp,
            gained,
            lost,
            step: Step::Changed(prepared),
        })
    }

    // Makes the next version ready.
    fn prepare_version<'a>(&mut self, version: Version) -> Result<PreparedCommand<'a>, NoMemory>
        requires { (past : Past) × Represents self.old past
            × IsCommandAccepted past (found.Evolve version) }
        ensures same { IsSame self.old self.new }
        ensures prepared { (past : Past) → Represents self.old past
            → IsCommandAccepted past (found.Evolve version) → IfOk result (λ prepared.
            Prepares self.new past (checked_command (found.Evolve version)) prepared) }
    {
        let number = self.newest() + 1;
        let schema = newest_schema(&self.nothing, &self.versions);
        let tables = begin_version(
            self.alloc,
            number,
            schema,
            &self.stored,
            &self.newest,
            &version,
        )?;
        self.reserve_version(tables.begun.len())?;
        Ok(PreparedCommand {
            stamp: version.stamp,
            gained: 0,
            lost: 0,
            step: Step::Evolved(version, tables.begun, tables.places),
        })
    }

    // Puts the version after the others. The tables that its operator makes begin with it, over the
    // next of the stores.
    fn restore_version(
        &mut self,
        version: Version,
        stores: &mut IntoIter<StoredTable>,
    ) -> Result<(), NoMemory>
        requires restored { AreRestored self.old }
        requires schema { IsValid (newest_from no_tables (versions_in self.old)) }
        requires accepted { evolution_fault (newest_from no_tables (versions_in self.old))
            (evolution_of version.op) ≡ None }
        requires tables { version.schema ≡ schema_after_each
            (newest_from no_tables (versions_in self.old)) (evolution_of version.op) }
        requires fits { length self.old.versions + 1 < 2 ^ 32 }
        requires due { HaveColumns (into_iter_items stores.old)
            (made_tables (newest_from no_tables (versions_in self.old)) (evolution_of version.op)
            version.schema) }
        ensures versions { OnOk result (self.new.versions ≡ self.old.versions ++ version ∷ []) }
        ensures restored { OnOk result (AreRestored self.new) }
        ensures taken { OnOk result (stores_of self.new.stored ++ into_iter_items stores.new
            ≡ stores_of self.old.stored ++ into_iter_items stores.old) }
    {
        let number = self.newest() + 1;
        let tables = restored_tables(
            self.alloc,
            number,
            &version.schema,
            &self.stored,
            &self.newest,
            made(&version.op),
            stores,
        )?;
        self.reserve_version(tables.begun.len())?;
        self.install_version(version, tables.begun, tables.places);
        Ok(())
    }

    // Room for one version more, and for so many tables that begin with it.
    fn reserve_version(&mut self, beginnings: usize) -> Result<(), NoMemory>
        ensures same { IsSame self.old self.new }
        ensures stored { self.new.stored ≡ self.old.stored }
        ensures room { OnOk result (1 ≤ self.new.spare) }
        ensures beginnings { OnOk result (beginnings ≤ self.new.beginnings) }
    {
        reserve_more(&mut self.versions.list, 1)?;
        reserve_more(&mut self.earlier, 1)?;
        reserve_more(&mut self.stored, beginnings)?;
        Ok(())
    }
}
