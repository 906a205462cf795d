ghost use Rattle.std.specs.Prelude.{◌≡◌, ◌<◌, ◌↔◌, ◌⊎◌, ℕ, true, IfOk, IfErr, OnOk, Some, None};
ghost use Rattle.std.specs.Prelude.{Ok, Err};
ghost use Rattle.std.specs.Prelude.{position, length, slice_get, take, drop, IfSome, ◌≤◌};
ghost use Rattle.std.specs.Map.{keys_of};
ghost use Rattle.std.specs.Option.{option_map};
ghost use Rattle.relations_spec.specs.Spans.{forever};
ghost use Rattle.prima_io.specs.Causes.{Rose};
ghost use Rattle.smo_ops_types.specs.Changes.{changes_of};
ghost use Rattle.smo_ops_types.specs.Commands.{PlainCommand};
ghost use Rattle.temporal_lang_types.specs.Queries.{query_of};
ghost use Rattle.sessions.specs.declared.vault.VaultFault.TheVariants as fault;
ghost use Rattle.sessions.specs.Shared.{Shared, newest};
ghost use Rattle.sessions.specs.SessionStates.{no_sessions, is_cursor, cursor_of};
ghost use Rattle.sessions.specs.Kept.{kept_entries};
ghost use Rattle.sessions.specs.Meaning.{sessions_of};
ghost use Rattle.sessions.specs.Requests.{beginning, buffering, committing, aborting, opening};
ghost use Rattle.sessions.specs.Requests.{fetching, closing};
ghost use Rattle.sessions.specs.Steps.{a_world};
ghost use Rattle.sessions.specs.Steps.{begun, buffered, aborted, opened, closed};
ghost use Rattle.sessions.specs.Steps.{changes_so_far};
ghost use Rattle.sessions.specs.Serving.{Serves, ServesCommit, ComesToVault, GivesVault};
ghost use Rattle.sessions.specs.Serving.{IsCommandOf, IsNoDisks};
ghost use Rattle.sessions.specs.Lines.{line_of, line_seen, IsNoCursor};

use crate::cursor::{Cursor, CursorLine, next_rows};
use crate::transaction::{Transaction, copy_changes};
use crate::{KeptRow, Vault, VaultDone, VaultFault};
use indexmap::IndexMap;
use prima_base::{Name, Refusal};
use smo_ops_types::{Body, Change, Command};
use std::alloc::Global;
use temporal_lang_types::Query;

/// Begun transactions and open cursors.
#[derive(Drop)]
pub struct Sessions {
    alloc: Global,
    transactions: IndexMap<u32, Transaction>,
    // by session and name, in the order of opening
    cursors: IndexMap<(u32, Name), Cursor>,
}

impl Sessions {
    ghost use Rattle.std.specs.Borrow.{sem};
    ghost use denote.Follow.{follows_so};
    ghost use mathlib.Core.Option.{none};
    ghost use Rattle.std.specs.Prelude.{⊤};
    ghost use Rattle.sessions.specs.contracts.session.Sessions.{the_row};
    ghost use Rattle.sessions.specs.Fetching.{Advances, ServesFetch, HandsOut};
    ghost use Rattle.sessions.specs.Kept.{kept_entries};

    /// No transaction is begun and no cursor is open. It takes no memory.
    pub fn new(alloc: Global) -> Sessions
        ensures { sessions_of result ≡ no_sessions }
    {
        Sessions {
            alloc,
            transactions: IndexMap::new(alloc),
            cursors: IndexMap::new(alloc),
        }
    }

    /// Begins the session's transaction, and tells the newest version. `Begun` exactly where it has
    /// one.
    pub fn begin<V: Vault>(&mut self, session: u32, vault: &V) -> Result<u32, VaultFault>
        ensures serves { (shared : Shared) → V.shows vault.now shared
            → Serves V.needs begun (a_world shared (sessions_of self.old)) session beginning result
            (sessions_of self.new) }
        ensures no_disk { IfErr result IsNoDisks }
    {
        if self.transactions.contains_key(&session) {
            return Err(VaultFault::Refused(Refusal::Begun(session)));
        }
        let began = vault.newest();
        let changes = Vec::new(self.alloc);
        self.transactions
            .insert(session, Transaction { began, changes })?;
        Ok(began)
    }

    /// Adds changes to the session's transaction, and tells how many it then has. `NotBegun`
    /// exactly where it has none, then `TooMany` exactly where they would be more than 65,536.
    pub fn buffer(&mut self, session: u32, changes: Vec<Change>) -> Result<u64, VaultFault>
        ensures serves { (needs : PlainCommand → ℕ) → (shared : Shared)
            → Serves needs buffered (a_world shared (sessions_of self.old)) session
            (buffering (changes_of changes.items)) result (sessions_of self.new) }
        ensures no_disk { IfErr result IsNoDisks }
    {
        match self.transactions.get_mut(&session) {
            None => Err(VaultFault::Refused(Refusal::NotBegun(session))),
            Some(transaction) => transaction.buffer(changes),
        }
    }

    /// Ends the session's transaction; its changes are gone. `NotBegun` exactly where it has none.
    /// It takes no memory.
    pub fn abort(&mut self, session: u32) -> Result<(), VaultFault>
        ensures serves { (needs : PlainCommand → ℕ) → (shared : Shared)
            → Serves needs (λ _. aborted) (a_world shared (sessions_of self.old)) session aborting
            result (sessions_of self.new) }
        ensures no_memory { result ≡ Err fault.NoMemory → ⊥ }
        ensures no_disk { IfErr result IsNoDisks }
    {
        match self.transactions.swap_remove(&session) {
            None => Err(VaultFault::Refused(Refusal::NotBegun(session))),
            Some(_) => Ok(()),
        }
    }

    // The command of the session's changes, copied: none where none is buffered.
    fn command_of(
        &self,
        session: u32,
        stamp: u64,
        newest: u32,
    ) -> Result<Option<Command>, VaultFault>
        requires { stamp < forever }
        ensures { IsCommandOf session stamp newest ((sessions_of self.now).transaction session)
            result }
    {
        let Some(transaction) = self.transactions.get(&session) else {
            return Err(VaultFault::Refused(Refusal::NotBegun(session)));
        };
        if transaction.began != newest {
            let moved = Refusal::SchemaMoved(transaction.began, newest);
            return Err(VaultFault::Refused(moved));
        }
        if transaction.changes.is_empty() {
            return Ok(None);
        }
        let changes = copy_changes(self.alloc, &transaction.changes)?;
        Ok(Some(Command::of(stamp, Body::Changes(changes))))
    }

    /// Commits all changes of the session's transaction as one command at the stamp, and ends the
    /// transaction; where no change is buffered there is no command, and `None` is answered.
    /// `NotBegun` exactly where the session has none, then `SchemaMoved` exactly where the newest
    /// version is no longer the one at its beginning, and then, where a change is buffered, the
    /// vault's answer to the command. After an error the transaction stays as it is.
    pub fn commit<V: Vault>(
        &mut self,
        session: u32,
        stamp: u64,
        vault: &mut V,
    ) -> Result<Option<VaultDone>, VaultFault>
        requires { stamp < forever }
        ensures serves { (shared : Shared) → V.shows vault.old shared
            → ServesCommit V.needs (a_world shared (sessions_of self.old)) session stamp result
            (sessions_of self.new) (V.shows vault.new) }
        ensures broken { (shared : Shared) → V.shows vault.old shared → result ≡ Err fault.Broken
            → (V.is_broken vault.old ≡ true) × ComesToVault session (newest shared)
            ((sessions_of self.old).transaction session) }
        ensures breaks { (V.is_broken vault.new ≡ true)
            ↔ ((V.is_broken vault.old ≡ true) ⊎ (result ≡ Err fault.Disk)) }
        ensures reports_broken { (shared : Shared) → V.shows vault.old shared
            → V.is_broken vault.old ≡ true
            → ComesToVault session (newest shared) ((sessions_of self.old).transaction session)
            → (result ≡ Err fault.Broken) ⊎ (result ≡ Err fault.NoMemory) }
        ensures cause { result ≡ Err fault.Disk → Rose (V.faults vault.old) (V.faults vault.new) }
        ensures unfailed { (result ≡ Err fault.Disk → ⊥)
            → V.faults vault.new ≡ V.faults vault.old }
        ensures broken_before { result ≡ Err fault.Broken → V.is_broken vault.old ≡ true }
        ensures gives { GivesVault V.commits vault.old stamp
            (changes_so_far ((sessions_of self.old).transaction session)) result vault.new }
    {
        let newest = vault.newest();
        match self.command_of(session, stamp, newest)? {
            None => {
                self.transactions.swap_remove(&session);
                Ok(None)
            }
            Some(command) => match vault.commit(command) {
                Ok(done) => {
                    self.transactions.swap_remove(&session);
                    Ok(Some(done))
                }
                Err(fault) => Err(fault),
            },
        }
    }

    // The place of the session's cursor of this name.
    fn place_of(&self, session: u32, cursor: &Name) -> Option<usize>
        ensures { result ≡ position (is_cursor session cursor.now)
            (keys_of self.now.cursors.entries) }
    {
        place_in(self.cursors.keys().as_slice(), session, cursor)
    }

    /// Opens a cursor on the answer of a query, and tells how many entries it has. `CursorOpen`
    /// exactly where the session has an open cursor of this name, then the query's refusal.
    pub fn open<V: Vault>(
        &mut self,
        session: u32,
        cursor: Name,
        query: &Query,
        vault: &V,
    ) -> Result<u64, VaultFault>
        ensures serves { (shared : Shared) → V.shows vault.now shared
            → Serves V.needs opened (a_world shared (sessions_of self.old)) session
            (opening cursor (query_of query.now)) result (sessions_of self.new) }
        ensures no_disk { IfErr result IsNoDisks }
    {
        if self.place_of(session, &cursor).is_some() {
            return Err(VaultFault::Refused(Refusal::CursorOpen(session, cursor)));
        }
        let rows = match vault.listing(query) {
            Ok(rows) => rows,
            Err(fault) => return Err(fault),
        };
        let opened = Cursor::on(rows, query.when);
        let total = opened.total();
        self.cursors.insert((session, cursor), opened)?;
        Ok(total)
    }

    /// Whether the periods of the cursor's entries are told: not where its query asks of one
    /// moment. `None` exactly where it is not open. It takes no memory.
    pub fn periods(&self, session: u32, cursor: &Name) -> Option<bool>
        ensures { result ≡ option_map (λ c. c.periods)
            (cursor_of (sessions_of self.now) session cursor.now) }
    {
        let place = self.place_of(session, cursor)?;
        let (_, open) = self.cursors.get_index(place)?;
        Some(open.periods)
    }

    // Goes on over the next rows of the cursor at a place, and tells from where.
    fn advance(&mut self, place: usize, count: u32) -> usize
        requires { place < length self.old.cursors.entries }
        ensures transactions { self.new.transactions ≡ self.old.transactions }
        ensures advances { Advances count self.old.cursors.entries self.new.cursors.entries place
            result }
    {
        match self.cursors.get_index_mut(place) {
            Some(open) => open.advance(count),
            None => 0,
        }
    }

    /// The next entries of a cursor: so many, or all that are left. `None` exactly where it is not
    /// open. It takes no memory.
    pub fn fetch(&mut self, session: u32, cursor: &Name, count: u32) -> Option<&[KeptRow]>
        ensures* after { sem 𝓛 (follows_so the_row the_row self.entry.ghost_name none (λ _ _. ⊤)
            (λ new. ServesFetch (sessions_of self.old) session cursor.now count result
            (sessions_of new))) }
    {
        match self.place_of(session, cursor) {
            Some(place) => Some(self.hand_out(place, count)),
            None => None,
        }
    }

    // Goes on over the next rows of the cursor at a place, and hands them out.
    fn hand_out(&mut self, place: usize, count: u32) -> &[KeptRow]
        requires { place < length self.old.cursors.entries }
        ensures* after { sem 𝓛 (follows_so the_row the_row self.entry.ghost_name none (λ _ _. ⊤)
            (λ new. (new.transactions ≡ self.old.transactions)
            × HandsOut count self.old.cursors.entries new.cursors.entries place result.now)) }
    {
        let from = self.advance(place, count);
        rows_at(&self.cursors, place, from, count)
    }

    /// Closes a cursor; the others keep their order. `NoCursor` exactly where it is not open, and
    /// there alone memory is taken.
    pub fn close(&mut self, session: u32, cursor: &Name) -> Result<(), VaultFault>
        ensures serves { (needs : PlainCommand → ℕ) → (shared : Shared)
            → Serves needs (λ _. closed) (a_world shared (sessions_of self.old)) session
            (closing cursor.now) result (sessions_of self.new) }
        ensures no_memory { result ≡ Err fault.NoMemory
            → cursor_of (sessions_of self.old) session cursor.now ≡ None }
        ensures no_disk { IfErr result IsNoDisks }
    {
        match self.place_of(session, cursor) {
            None => Err(no_cursor(session, cursor)),
            Some(place) => {
                self.cursors.shift_remove_index(place);
                Ok(())
            }
        }
    }

    /// How many cursors are open. It takes no memory.
    pub fn cursors(&self) -> usize
        ensures { result ≡ length (sessions_of self.now).cursors }
    {
        self.cursors.len()
    }

    /// The i-th open cursor, from 0, in the order of opening. `None` exactly where there is none.
    /// It takes no memory.
    pub fn cursor(&self, i: usize) -> Option<CursorLine<'_>>
        ensures { option_map line_seen result
            ≡ option_map line_of (slice_get (sessions_of self.now).cursors i) }
    {
        let (key, open) = self.cursors.get_index(i)?;
        Some(open.line(key.0, &key.1))
    }
}

fn place_in(keys: &[(u32, Name)], session: u32, cursor: &Name) -> Option<usize>
    ensures { result ≡ position (is_cursor session cursor.now) keys.now }
{
    keys.iter()
        .position(|key| session == key.0 && *cursor == key.1)
}

// The rows of the cursor at a place, from one on: so many, or all that are left.
fn rows_at(
    cursors: &IndexMap<(u32, Name), Cursor>,
    place: usize,
    from: usize,
    count: u32,
) -> &[KeptRow]
    requires { IfSome (slice_get cursors.now.entries place) (λ e. from ≤ length e.1.rows.items) }
    ensures { IfSome (slice_get cursors.now.entries place) (λ e.
        kept_entries result.now ≡ take count (drop from (kept_entries e.1.rows.items))) }
{
    match cursors.get_index(place) {
        Some((_, open)) => next_rows(&open.rows, from, count),
        None => &[],
    }
}

// That the cursor is not open; or memory ran out.
fn no_cursor(session: u32, cursor: &Name) -> VaultFault
    ensures { IsNoCursor session cursor.now result }
{
    match cursor.copy() {
        Ok(name) => VaultFault::Refused(Refusal::NoCursor(session, name)),
        Err(_) => VaultFault::NoMemory,
    }
}
