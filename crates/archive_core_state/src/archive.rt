use crate::acceptance::check;
use crate::asked_query::{ask, explain_query};
use crate::width::check_width;
use crate::{AcceptedCommand, AskFault, CommandFault};
use answer_text::Listing;
use piece_ir::Explained;
use prima_base::{NoMemory, Steps};
use query_exec::{Rule, RuleBook};
use smo_ops::Command;
use std::alloc::Global;
use std::marker::Model;
use std::sync::ledger::Ledger;
use temporal_lang_types::Query;
use version_groups::{CheckedCommand, Groups, PreparedCommand};

/// What was accepted: the versions with their stored tables, and the last stamp. Every archive
/// represents a past.
#[derive(Drop)]
pub struct ArchiveState {
    alloc: Global,
    groups: Groups,
    last: Option<u64>,
}

impl Model for ArchiveState {
    ghost use Rattle.archive_core_state.specs.ArchiveContents.{ArchiveContent, RepresentsSome};
    ghost use Rattle.smo_ops_types.specs.contracts.version.Version as version_row;
    ghost use Rattle.std.specs.Coded.{codes};

    ghost Value = { ArchiveContent };

    ghost coded = { Prim.hlevel (codes, version_row.the_row.coded) };

    ghost view = { λ a. record { groups = a.groups; last = a.last } };

    ghost invariant = { λ a. RepresentsSome (record { groups = a.groups; last = a.last }) };
}

/// What an accepted command did: its stamp; how many rows it gained and lost over all tables, none
/// for an operator; and the version that an operator made.
#[derive(Clone, Copy)]
pub struct Done {
    pub stamp: u64,
    pub gained: u64,
    pub lost: u64,
    pub version: Option<u32>,
}

ghost use Rattle.std.specs.Prelude.{◌≡◌, Some, None, if◌then◌else◌};

// The newest version, where the command made it.
fn version_made(makes_version: bool, newest: u32) -> Option<u32>
    ensures { result ≡ (if makes_version then Some newest else None) }
{
    if makes_version {
        return Some(newest);
    }
    None
}

impl ArchiveState {
    ghost use Rattle.std.specs.Prelude.{◌≡◌, ◌+◌, ◌≤◌, List, IfOk};
    ghost use Rattle.relations_spec.specs.Sets.{In};
    ghost use Rattle.smo_ops_types.specs.Commands.{command_of, PlainCommand};
    ghost use Rattle.prima_base.specs.Faults.{IsTestedAs};
    ghost use Rattle.smo_ops_spec.specs.Accepts.{command_fault};
    ghost use Rattle.smo_ops_spec.specs.Past.{Past, beginning, past_with};
    ghost use Rattle.version_groups.specs.CheckedCommands.{checked_command, IsCommandAccepted};
    ghost use Rattle.version_groups.specs.Steps.{Prepares};
    ghost use Rattle.archive_core_state.specs.ArchiveContents.{RepresentsPast, RepresentsSome};
    ghost use Rattle.archive_core_state.specs.ArchiveContents.{archive_content};
    ghost use Rattle.temporal_lang_types.specs.Queries.{query_of};
    ghost use Rattle.archive_core_state.specs.AcceptedCommands.{accepted_command, IsAcceptedAfter};
    ghost use Rattle.archive_core_state.specs.NewCommands.{new_command_fault};
    ghost use Rattle.archive_core_state.specs.Committing.{IsAsBefore, IsDone, Accepts};
    ghost use Rattle.query_exec.specs.Books.{book_meaning};
    ghost use Rattle.piece_ir.specs.ExplainedPieces.{PlainExplained};
    ghost use Rattle.query_exec.specs.Borrowed.{BorrowedByBranch, AreSpared, AreBorrowedBy};
    ghost use Rattle.query_exec.specs.Reads.{explained_read, reads_of};
    ghost use Rattle.archive_core_state.specs.Asking.{IsAsked, IsExplained, TellsWayBack};
    ghost use Rattle.archive_core_state.specs.Asking.{ArePiecesOf};
    ghost use Rattle.archive_core_state.specs.Asking.{query_asked, pieces_told, IsKeptOfList};
    ghost use Rattle.archive_core_state.specs.Asking.{IsNotRefused};

    /// An archive that has accepted nothing. It takes no memory.
    pub fn new(alloc: Global) -> ArchiveState
        ensures { RepresentsPast result beginning }
    {
        ArchiveState {
            alloc,
            groups: Groups::new(alloc),
            last: None,
        }
    }

    /// An archive that has these versions with their stored tables, and whose last command had this
    /// stamp: one that represents each past that the groups represent and that ends with this
    /// stamp. It takes no memory.
    pub fn restored(alloc: Global, groups: Groups, last: Option<u64>) -> ArchiveState
        requires { RepresentsSome (archive_content groups last) }
        ensures { result ≡ archive_content groups last }
    {
        ArchiveState {
            alloc,
            groups,
            last,
        }
    }

    /// The stamp of the last accepted command, if there is one. It takes no memory.
    pub fn last(&self) -> Option<u64>
        ensures last { result ≡ self.now.last }
        ensures represents { RepresentsSome self.now }
    {
        self.last
    }

    /// The versions with their stored tables. It takes no memory.
    pub fn groups(&self) -> &Groups
        ensures groups { result.now ≡ self.now.groups }
        ensures represents { RepresentsSome self.now }
    {
        &self.groups
    }

    /// Checks the command. An accepted one is answered with what was found, for `prepare`: of each
    /// change where its table stands, and of an operator the version that it makes, with the schema
    /// that is after it. Another is refused by the first refusal in the one order: its counts (38);
    /// its stamp (20); of changes, one after the other, each whole before the next (22, 27, 23, 35,
    /// 25); of an operator the number of versions (38), its preconditions in written order, and
    /// then its inverse (32). `NoMemory` comes where memory runs out.
    pub fn check(&self, command: Command) -> Result<AcceptedCommand, CommandFault>
        ensures same { IfOk result (λ accepted. accepted_command accepted ≡ command_of command) }
        ensures checks { (past : Past) → RepresentsPast self.now past
            → IsTestedAs (IsAcceptedAfter past) (command_fault past (command_of command)) result }
        ensures represents { RepresentsSome self.now }
    {
        check(self.alloc, &self.groups, self.last, command)
    }

    /// Checks a command whose record does not stand yet: as by `check`, and after these refusals
    /// comes `TooWide` (39), exactly where an operator makes a version whose measure is above
    /// 1,000,000. A record that stands is not judged by it.
    pub fn check_new(&self, command: Command) -> Result<AcceptedCommand, CommandFault>
        ensures same { IfOk result (λ accepted. accepted_command accepted ≡ command_of command) }
        ensures checks { (past : Past) → RepresentsPast self.now past
            → IsTestedAs (IsAcceptedAfter past) (new_command_fault past (command_of command))
            result }
        ensures represents { RepresentsSome self.now }
    {
        match self.check(command) {
            Err(fault) => Err(fault),
            Ok(checked) => match check_width(self.alloc, &self.groups, &checked) {
                Err(fault) => Err(fault),
                Ok(()) => Ok(checked),
            },
        }
    }

    /// Makes a command ready that was checked, and is accepted: all the memory that it needs is
    /// taken, and `apply` then accepts it. The archive represents the past that it represented,
    /// with the same stored tables but for room. The one error is `NoMemory`, where memory runs
    /// out.
    pub fn prepare<'a>(
        &mut self,
        checked: CheckedCommand<'a>,
    ) -> Result<PreparedCommand<'a>, NoMemory>
        requires { (past : Past) × RepresentsPast self.old past × IsCommandAccepted past checked }
        ensures before { IsAsBefore self.old self.new }
        ensures represents { (past : Past) → RepresentsPast self.old past
            → RepresentsPast self.new past }
        ensures prepared { (past : Past) → RepresentsPast self.old past
            → IsCommandAccepted past checked.entry → IfOk result (λ prepared.
            Prepares self.new.groups past (checked_command checked.entry) prepared) }
    {
        self.groups.prepare(checked)
    }

    /// Carries out what `prepare` made of a command and this very archive, which then
    /// represents the past with the command. It takes no memory, and cannot fail.
    #[tactic(auto, using(crate::proofs::Applied::represents_next, crate::proofs::Applied::newest_next))]
    pub fn apply(&mut self, prepared: PreparedCommand<'_>) -> Done
        requires { (past : Past) × (command : PlainCommand) × RepresentsPast self.old past
            × Prepares self.old.groups past command prepared }
        ensures done { (past : Past) → (command : PlainCommand) → RepresentsPast self.old past
            → Prepares self.old.groups past command prepared.entry
            → IsDone past command result × RepresentsPast self.new (past_with past command) }
        ensures represents { RepresentsSome self.new }
    {
        let stamp = prepared.stamp();
        let gained = prepared.gained();
        let lost = prepared.lost();
        let makes_version = prepared.makes_version();
        self.groups.install(prepared);
        self.last = Some(stamp);
        Done {
            stamp,
            gained,
            lost,
            version: version_made(makes_version, self.groups.newest()),
        }
    }

    /// Checks the command and carries an accepted one out, with nothing between: so a command is
    /// carried out whose record stands already. Another is refused as by `check`, and the archive
    /// is what it was. Where memory runs out it represents the past that it represented, as it was
    /// but for room.
    pub fn commit(&mut self, command: Command) -> Result<Done, CommandFault>
        ensures commits { (past : Past) → RepresentsPast self.old past
            → Accepts past (command_of command) self.old result self.new }
        ensures represents { RepresentsSome self.old × RepresentsSome self.new }
    {
        let accepted = self.check(command)?;
        match accepted {
            AcceptedCommand::Changes {
                stamp,
                changes,
                places,
            } => self.accept(CheckedCommand::Changes {
                stamp,
                changes: &changes,
                places,
            }),
            AcceptedCommand::Evolve(version) => self.accept(CheckedCommand::Evolve(version)),
        }
    }

    /// What a query lists over all of history: at each moment of its slice its plain answer over
    /// the database of that moment, migrated to the version that it names; each row with its
    /// longest periods, ascending by row and start. Else the first refusal in the one order: its
    /// counts (38); the version (21); then the refusals of `check_query` over the version's tables;
    /// and last (33), where by names alone an item of the query is lost on the way from a version
    /// in force in its slice, its table or a column of it that its branch names: only where at the
    /// least such moment the version that is told is gone back over, names no inverse, has none
    /// that is derived, and loses the item. Of the entries those stay that meet every condition of
    /// KEEP. Clause `asked` says this by the function of the listing,
    /// `listed` by what its entries are.
    ///
    /// It takes at most as many steps as there are, for each of the query's pieces, which are those
    /// that `explain` tells, keys of the piece's tables and entries of the columns that it names of
    /// them, and none where the query is refused; where it lists, at least as many as there are for
    /// any one of these pieces. The texts of each output that is a plain column are borrowed by
    /// what the archive keeps, unless one of these pieces computes that text for the column of its
    /// item: each row is so of one of the branches that answer it where its period begins. The one
    /// other error is `NoMemory`, where memory runs out.
    pub fn query<'a, L: Ledger, R: Rule>(
        &'a self,
        book: &RuleBook<R>,
        query: &Query,
        steps: &mut Steps<L>,
    ) -> Result<Listing<'a>, AskFault>
        ensures asked { (past : Past) → RepresentsPast self.now past
            → IsAsked past (query_of query.now) result }
        ensures listed { (past : Past) → RepresentsPast self.now past
            → IfOk result (λ listing. IsKeptOfList past (query_of query.now) listing) }
        ensures way_back { (past : Past) → RepresentsPast self.now past
            → TellsWayBack past (query_of query.now) result }
        ensures represents { RepresentsSome self.now }
        ensures borrowed { (past : Past) → RepresentsPast self.now past
            → (pieces : List PlainExplained)
            → ArePiecesOf (book_meaning R.Rule book.now) past (query_of query.now) pieces
            → (by_branch : BorrowedByBranch) → AreSpared self.now.groups by_branch pieces
            → IfOk result (λ listing. AreBorrowedBy past
            (query_asked past (query_of query.now)) by_branch listing.rows.items) }
        ensures cost { (past : Past) → RepresentsPast self.now past
            → IsNotRefused past (query_of query.now)
            → steps.new ≤ steps.old + reads_of self.now.groups (pieces_told
            (book_meaning R.Rule book.now) past (query_of query.now)) }
        ensures unread { (past : Past) → RepresentsPast self.now past
            → ¬ IsNotRefused past (query_of query.now) → steps.new ≡ steps.old }
        ensures least { (past : Past) → RepresentsPast self.now past → (e : PlainExplained)
            → In e (pieces_told (book_meaning R.Rule book.now) past
            (query_of query.now))
            → IfOk result (λ _. steps.old + explained_read self.now.groups e ≤ steps.new) }
        ensures rises { steps.old ≤ steps.new }
    {
        ask(self.alloc, &self.groups, book, query, steps)
    }

    /// The pieces of a query, just those that `query` reads: for each branch and item in text
    /// order, and for each version that is in force in the slice, those into which what is asked of
    /// the item's table unfolds there, the rows that meet the condition that is pushed to it with
    /// the columns that the branch names, but for the dead. A query is refused as by `query`. The
    /// one other error is `NoMemory`, where memory runs out.
    pub fn explain<R: Rule>(
        &self,
        book: &RuleBook<R>,
        query: &Query,
    ) -> Result<Vec<Explained>, AskFault>
        ensures explained { (past : Past) → RepresentsPast self.now past
            → IsExplained (book_meaning R.Rule book.now) past (query_of query.now) result }
        ensures represents { RepresentsSome self.now }
    {
        explain_query(self.alloc, &self.groups, book, query)
    }

    // Makes an accepted command ready, and carries it out.
    fn accept(&mut self, checked: CheckedCommand<'_>) -> Result<Done, CommandFault>
        requires { (past : Past) × RepresentsPast self.old past × IsCommandAccepted past checked }
        ensures commits { (past : Past) → RepresentsPast self.old past
            → IsCommandAccepted past checked.entry
            → Accepts past (checked_command checked.entry) self.old result self.new }
        ensures represents { RepresentsSome self.new }
    {
        let prepared = self.prepare(checked)?;
        Ok(self.apply(prepared))
    }
}
