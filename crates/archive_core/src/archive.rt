ghost use Rattle.std.specs.Prelude.{◌≡◌, ◌⊎◌, ◌+◌, ◌-◌, ◌^◌, ◌≤◌, ◌↔◌, IsTrue, ℕ, List, length};
ghost use Rattle.std.specs.Prelude.{min, Some, None, Err, true, false, IfOk, IfErr, OnOk};
ghost use Rattle.relations_spec.specs.Sets.{In};
ghost use Rattle.prima_io.specs.Causes.{Rose};
ghost use Rattle.disk_model.specs.Meaning.{IfKnown, BothKnown};
ghost use Rattle.disk_model.specs.Moments.{GoesOn};
ghost use Rattle.smo_ops_types.specs.Commands.{command_of};
ghost use Rattle.smo_ops_spec.specs.Past.{Past};
ghost use Rattle.command_codec_spec.specs.Valid.{IsCommand};
ghost use Rattle.temporal_lang_types.specs.Queries.{query_of};
ghost use Rattle.archive_core_replay.specs.Memory.{book_meaning};
ghost use Rattle.journal.specs.Mounting.{IsNotSynced, KeepsFile};
ghost use Rattle.journal.specs.Records.{Record, StandsFor, opened_file};
ghost use Rattle.journal.specs.JournalFiles.{Stands, sealed_record};
ghost use Rattle.archive_core_file_spec.specs.LogRecords.{LogRecord, logged, record_of, records_of};
ghost use Rattle.archive_core_file_spec.specs.LogRecords.{replayed_of};
ghost use Rattle.archive_core_file_spec.specs.Opening.{Opens, Damages};
ghost use Rattle.archive_core_replay.specs.Memory.{RepresentsPast, RepresentsSome};
ghost use Rattle.archive_core_replay.specs.Memory.{new_command_fault, IsAsked, IsExplained};
ghost use Rattle.archive_core_replay.specs.Memory.{TellsWayBack, ArePiecesOf, query_asked};
ghost use Rattle.archive_core_replay.specs.Memory.{pieces_told, IsKeptOfList, IsNotRefused};
ghost use Rattle.archive_core_replay.specs.Memory.{BorrowedByBranch, AreSpared, AreBorrowedBy};
ghost use Rattle.archive_core_replay.specs.Memory.{explained_read, reads_of};
ghost use Rattle.archive_core_replay.specs.Memory.{checked_command, IsCommandAccepted};
ghost use Rattle.piece_ir.specs.ExplainedPieces.{PlainExplained};
ghost use Rattle.archive_core.specs.NextRecord.{HasGateUnless, gate_once};
ghost use Rattle.archive_core.specs.declared.fault.CommitFault.TheVariants as fault;
ghost use Rattle.archive_core.specs.declared.fault.MountFault.TheVariants as mounting;

use crate::fault::{fault_of_journal, fault_of_restoring};
use crate::preparation::{check_and_seal, seal_checkpoint};
use crate::{AskFault, CommitFault, MountFault};
use archive_core_replay::{
    AcceptedCommand, ArchiveState, CheckedCommand, Done, Groups, Listing, Opened, Rule, RuleBook,
    an_image_shows_its_archive, restore,
};
use disk_model::Disk;
use journal::{Journal, PutFault, Sealed};
use piece_ir::Explained;
use prima_base::{Refusal, Steps};
use smo_ops_types::Command;
use std::alloc::Global;
use std::sync::ledger::Ledger;
use temporal_lang_types::Query;

/// An archive whose accepted commands stand as records in a journal on a disk, and in memory as the
/// past that they make.
#[derive(Drop)]
pub struct Archive<D: Disk> {
    alloc: Global,
    pub(crate) state: ArchiveState,
    pub(crate) journal: Journal<D>,
    // a call has answered that the disk failed
    pub(crate) broken: bool,
    // until then the journal takes records
    ghost ready: { HasGateUnless broken journal } by { gate_once broken journal },
}

impl<D: Disk> Archive<D> {
    ghost use Rattle.archive_core.specs.Fields.{standing_of, disk_of, below, place_of, limit_of};
    ghost use Rattle.archive_core.specs.Fields.{is_broken};
    ghost use Rattle.archive_core.specs.Committing.{Commits, IsPut};
    ghost use Rattle.archive_core.specs.DiskReads.{HoldsAt};
    ghost use Rattle.archive_core.specs.Putting.{PutsRecord, LeavesDisk, MovesGate, WritesRecord};
    ghost use Rattle.archive_core.specs.Putting.{HoldsRecord, KeepsRecord, IsDisksFault};
    ghost use Rattle.archive_core.specs.Putting.{IsUnfailed};
    ghost use Rattle.archive_core.specs.Checkpointing.{Checkpoints, image_of_archive};
    ghost use Rattle.archive_core.specs.Checkpointing.{checkpoint_of};
    ghost use Rattle.archive_core.specs.Mounting.{IsMounted, IsKeptOrBegun};
    ghost use Rattle.archive_core_replay.specs.Images.{IsImageOf};

    /// Opens the archive whose records the file on a disk holds: its past is exactly the one that
    /// the last image shows, or the empty one, with the commands after it, in order, and counts all
    /// commands. It begins with a sync. A file of at most nine bytes is made the empty journal; any
    /// other is read alone. A limit of `u64::MAX` bytes counts as one less. `Disk` comes only where
    /// the disk's count of faults rose, and `Damaged` exactly where the file is damaged, with the
    /// place: its frames are checked first, then each payload, then each command after the last
    /// image. A fault hands the disk back as it then stands: where the disk did not fail, with the
    /// file as it was, or with the empty journal that was made of at most nine bytes. It takes at
    /// most one step for each command after the last image, whatever it answers; over a damaged
    /// file at most one for each record.
    pub fn mount<L: Ledger>(
        alloc: Global,
        disk: D,
        limit: u64,
        steps: &mut Steps<L>,
    ) -> Result<(Archive<D>, Opened), (D, MountFault)>
        ensures opened { IfOk result (λ it. IfKnown (D.meaning disk).seen
            (λ file. IsMounted file (standing_of it.0) (place_of it.0) it.1)) }
        ensures represents { IfOk result (λ it. RepresentsSome (standing_of it.0)) }
        ensures limit { IfOk result (λ it. limit_of it.0 ≡ min limit (2 ^ 64 - 2)) }
        ensures whole { IfOk result (λ it. is_broken it.0 ≡ false) }
        ensures file { IfOk result (λ it. BothKnown (λ old new. new ≡ opened_file old)
            (D.meaning disk).seen (below it.0).seen) }
        ensures stands { IfOk result (λ it. (file : List ℕ) (log : List LogRecord)
            → IsTrue (D.meaning disk).is_honest → (D.meaning disk).seen ≡ Some file
            → Opens file log → Stands (below it.0) (place_of it.0) (records_of log)) }
        ensures holds { IfOk result (λ it. (file : List ℕ) (log : List LogRecord)
            → (D.meaning disk).seen ≡ Some file
            → Opens file log → HoldsAt (below it.0) (place_of it.0) (records_of log)) }
        ensures goes { IfOk result (λ it. GoesOn (D.meaning disk) (below it.0)) }
        ensures goes_err { IfErr result (λ it. GoesOn (D.meaning disk) (D.meaning it.0)) }
        ensures turns { IfOk result (λ it. KeepsFile (D.meaning disk) (below it.0)) }
        ensures turns_err { IfErr result (λ it.
            ((it.1 ≡ mounting.Disk) × IsNotSynced (D.meaning disk) (D.meaning it.0))
            ⊎ KeepsFile (D.meaning disk) (D.meaning it.0)) }
        ensures damaged { IfErr result (λ it. (place : ℕ) → it.1 ≡ mounting.Damaged place
            → IfKnown (D.meaning disk).seen (λ file. Damages file place)) }
        ensures untouched { IfErr result (λ it. (place : ℕ) → it.1 ≡ mounting.Damaged place
            → (D.meaning it.0).seen ≡ (D.meaning disk).seen) }
        ensures kept_or_begun { IfErr result (λ it. (it.1 ≡ mounting.Disk → ⊥)
            → IsKeptOrBegun (D.meaning disk).seen (D.meaning it.0).seen) }
        ensures cause { IfErr result (λ it. it.1 ≡ mounting.Disk
            → Rose (D.meaning disk).faults (D.meaning it.0).faults) }
        ensures unfailed { IfOk result (λ it. (below it.0).faults ≡ (D.meaning disk).faults) }
        ensures unfailed_err { IfErr result (λ it. (it.1 ≡ mounting.Disk → ⊥)
            → (D.meaning it.0).faults ≡ (D.meaning disk).faults) }
        ensures cost { IfKnown (D.meaning disk).seen (λ file. (records : List Record)
            → StandsFor file records → steps.new ≤ steps.old + length records) }
        ensures cost_open { IfKnown (D.meaning disk).seen (λ file. (log : List LogRecord)
            → Opens file log → steps.new ≤ steps.old + replayed_of log) }
        ensures steps { IfOk result (λ it. steps.new ≤ steps.old + it.1.replayed) }
    {
        match Journal::mount(alloc, disk, limit) {
            Err((disk, fault)) => Err((disk, fault_of_journal(fault))),
            Ok((journal, recs)) => {
                match restore(alloc, &recs, steps) {
                    Err(fault) => Err((journal.into_disk(), fault_of_restoring(fault))),
                    Ok((state, opened)) => {
                        let archive = Archive {
                            alloc,
                            state,
                            journal,
                            broken: false,
                        };
                        Ok((archive, opened))
                    }
                }
            }
        }
    }

    /// Accepts the command and puts its record, or refuses it. `Broken` comes first, exactly where
    /// an earlier call has answered `Disk`. Then come the refusals in the one order, as those of
    /// the archive in memory; after them `TooWide`, exactly where an operator makes a version whose
    /// measure is above 1,000,000; and after it `JournalFull`, exactly where the record would end
    /// past the limit. `Disk` comes only where the disk's count of faults rose: the file then has
    /// the record or not. All memory is taken before the first call of the device. At each moment
    /// of the call a crash leaves the records before, with the command's or without; after `Ok`
    /// every crash leaves it. After `Ok` the archive represents the past with the command, and else
    /// the past that it represented.
    pub fn commit(&mut self, command: Command) -> Result<Done, CommitFault>
        ensures broken { (result ≡ Err fault.Broken) ↔ (is_broken self.old ≡ true) }
        ensures breaks { (is_broken self.new ≡ true)
            ↔ ((is_broken self.old ≡ true) ⊎ (result ≡ Err fault.Disk)) }
        ensures commits { (past : Past) → RepresentsPast (standing_of self.old) past
            → Commits past (command_of command) (place_of self.old) (limit_of self.old)
            (standing_of self.old) result (standing_of self.new) }
        ensures represents { RepresentsSome (standing_of self.old)
            × RepresentsSome (standing_of self.new) }
        ensures untouched { LeavesDisk result self.old self.new }
        ensures limit { limit_of self.new ≡ limit_of self.old }
        ensures place { MovesGate (record_of (logged (command_of command)))
            result self.old self.new }
        ensures written { WritesRecord (record_of (logged (command_of command)))
            result self.old self.new }
        ensures holds { HoldsRecord (record_of (logged (command_of command)))
            result self.old self.new }
        ensures encoded { OnOk result (IsCommand (command_of command)) }
        ensures encoded_so_far { result ≡ Err fault.Disk → IsCommand (command_of command) }
        ensures cause { IsDisksFault result self.old self.new }
        ensures unfailed { IsUnfailed result self.old self.new }
        ensures puts { PutsRecord (record_of (logged (command_of command))) self.old self.new }
        ensures acknowledged { KeepsRecord (record_of (logged (command_of command)))
            result self.old self.new }
    {
        if self.broken {
            // what stands in memory represents a past all the same
            let _last = self.state.last();
            return Err(CommitFault::Broken);
        }
        let (accepted, sealed) = check_and_seal(self.alloc, &self.state, command)?;
        match accepted {
            AcceptedCommand::Changes {
                stamp,
                changes,
                places,
            } => {
                let checked = CheckedCommand::Changes {
                    stamp,
                    changes: &changes,
                    places,
                };
                self.accept(checked, &sealed)
            }
            AcceptedCommand::Evolve(version) => self.accept(
                CheckedCommand::Evolve(version),
                &sealed,
            ),
        }
    }

    /// Puts a record with the image of all that the archive has, so that a later mount carries out
    /// only the commands after it. `Broken` comes first, exactly where an earlier call has answered
    /// `Disk`. `Refused` comes with `JournalFull` alone, exactly where the record would end past
    /// the limit. `Disk` comes only where the disk's count of faults rose: the file then has the
    /// record or not. All memory is taken before the first call of the device. At each moment of
    /// the call a crash leaves the records before, with the checkpoint's or without; after `Ok`
    /// every crash leaves it. What stands in memory stays as it is.
    pub fn checkpoint(&mut self) -> Result<(), CommitFault>
        ensures broken { (result ≡ Err fault.Broken) ↔ (is_broken self.old ≡ true) }
        ensures breaks { (is_broken self.new ≡ true)
            ↔ ((is_broken self.old ≡ true) ⊎ (result ≡ Err fault.Disk)) }
        ensures checkpoints { (past : Past) → RepresentsPast (standing_of self.old) past
            → Checkpoints past (place_of self.old) (limit_of self.old) result }
        ensures image { OnOk result ((past : Past) → RepresentsPast (standing_of self.old) past
            → IsImageOf past (image_of_archive (standing_of self.old))) }
        ensures image_so_far { result ≡ Err fault.Disk → (past : Past)
            → RepresentsPast (standing_of self.old) past
            → IsImageOf past (image_of_archive (standing_of self.old)) }
        ensures same { standing_of self.new ≡ standing_of self.old }
        ensures untouched { LeavesDisk result self.old self.new }
        ensures limit { limit_of self.new ≡ limit_of self.old }
        ensures place { MovesGate (record_of (checkpoint_of (standing_of self.old)))
            result self.old self.new }
        ensures written { WritesRecord (record_of (checkpoint_of (standing_of self.old))) result
            self.old self.new }
        ensures holds { HoldsRecord (record_of (checkpoint_of (standing_of self.old))) result
            self.old self.new }
        ensures cause { IsDisksFault result self.old self.new }
        ensures unfailed { IsUnfailed result self.old self.new }
        ensures puts { PutsRecord (record_of (checkpoint_of (standing_of self.old))) self.old
            self.new }
        ensures acknowledged { KeepsRecord (record_of (checkpoint_of (standing_of self.old)))
            result self.old self.new }
    {
        an_image_shows_its_archive();
        if self.broken {
            return Err(CommitFault::Broken);
        }
        let sealed = seal_checkpoint(self.alloc, &self.state)?;
        self.put(&sealed)
    }

    /// What a query lists over all of history, and else its first refusal in the one order, as the
    /// archive in memory answers it (`ArchiveState::query`), in at most and at least as many steps.
    /// It calls no device, and may be asked after any answer.
    pub fn query<'a, L: Ledger, R: Rule>(
        &'a self,
        book: &RuleBook<R>,
        query: &Query,
        steps: &mut Steps<L>,
    ) -> Result<Listing<'a>, AskFault>
        ensures asked { (past : Past) → RepresentsPast (standing_of self.now) past
            → IsAsked past (query_of query.now) result }
        ensures listed { (past : Past) → RepresentsPast (standing_of self.now) past
            → IfOk result (λ listing. IsKeptOfList past (query_of query.now) listing) }
        ensures way_back { (past : Past) → RepresentsPast (standing_of self.now) past
            → TellsWayBack past (query_of query.now) result }
        ensures represents { RepresentsSome (standing_of self.now) }
        ensures borrowed { (past : Past) → RepresentsPast (standing_of self.now) past
            → (pieces : List PlainExplained)
            → ArePiecesOf (book_meaning R.Rule book.now) past (query_of query.now) pieces
            → (by_branch : BorrowedByBranch)
            → AreSpared (standing_of self.now).groups by_branch pieces
            → IfOk result (λ listing. AreBorrowedBy past
            (query_asked past (query_of query.now)) by_branch listing.rows.items) }
        ensures cost { (past : Past) → RepresentsPast (standing_of self.now) past
            → IsNotRefused past (query_of query.now)
            → steps.new ≤ steps.old + reads_of (standing_of self.now).groups (pieces_told
            (book_meaning R.Rule book.now) past (query_of query.now)) }
        ensures unread { (past : Past) → RepresentsPast (standing_of self.now) past
            → ¬ IsNotRefused past (query_of query.now) → steps.new ≡ steps.old }
        ensures least { (past : Past) → RepresentsPast (standing_of self.now) past
            → (e : PlainExplained)
            → In e (pieces_told (book_meaning R.Rule book.now) past
            (query_of query.now))
            → IfOk result (λ _. steps.old + explained_read (standing_of self.now).groups e ≤
            steps.new) }
        ensures rises { steps.old ≤ steps.new }
    {
        self.state.query(book, query, steps)
    }

    /// The pieces that a query reads, and else its first refusal in the one order, as the archive
    /// in memory tells them (`ArchiveState::explain`). It calls no device, and may be asked after
    /// any answer.
    pub fn explain<R: Rule>(
        &self,
        book: &RuleBook<R>,
        query: &Query,
    ) -> Result<Vec<Explained>, AskFault>
        ensures explained { (past : Past) → RepresentsPast (standing_of self.now) past
            → IsExplained (book_meaning R.Rule book.now) past (query_of query.now) result }
        ensures represents { RepresentsSome (standing_of self.now) }
    {
        self.state.explain(book, query)
    }

    /// The versions with their stored tables. It takes no memory.
    pub fn groups(&self) -> &Groups
        ensures groups { result.now ≡ (standing_of self.now).groups }
        ensures represents { RepresentsSome (standing_of self.now) }
    {
        self.state.groups()
    }

    /// The disk as it stands. It takes no memory.
    pub fn into_disk(self) -> D
        ensures { result ≡ disk_of self }
    {
        self.journal.into_disk()
    }

    // Makes a command ready that was checked and is accepted, puts its record, and carries it out.
    fn accept(&mut self, checked: CheckedCommand<'_>, sealed: &Sealed) -> Result<Done, CommitFault>
        requires whole { is_broken self.old ≡ false }
        requires accepted { (past : Past) × RepresentsPast (standing_of self.old) past
            × IsCommandAccepted past checked }
        requires sealed { sealed_record sealed.now ≡ record_of (logged (checked_command checked)) }
        ensures breaks { (is_broken self.new ≡ true) ↔ (result ≡ Err fault.Disk) }
        ensures unbroken { result ≡ Err fault.Broken → ⊥ }
        ensures commits { (past : Past) → RepresentsPast (standing_of self.old) past
            → IsCommandAccepted past checked.entry
            → new_command_fault past (checked_command checked.entry) ≡ None
            → Commits past (checked_command checked.entry) (place_of self.old) (limit_of self.old)
            (standing_of self.old) result (standing_of self.new) }
        ensures represents { RepresentsSome (standing_of self.new) }
        ensures untouched { LeavesDisk result self.old self.new }
        ensures limit { limit_of self.new ≡ limit_of self.old }
        ensures place { MovesGate (sealed_record sealed.now) result self.old self.new }
        ensures written { WritesRecord (sealed_record sealed.now) result self.old self.new }
        ensures holds { HoldsRecord (sealed_record sealed.now) result self.old self.new }
        ensures cause { IsDisksFault result self.old self.new }
        ensures unfailed { IsUnfailed result self.old self.new }
        ensures puts { PutsRecord (sealed_record sealed.now) self.old self.new }
        ensures acknowledged { KeepsRecord (sealed_record sealed.now) result self.old self.new }
    {
        let prepared = self.state.prepare(checked)?;
        self.put(sealed)?;
        Ok(self.state.apply(prepared))
    }

    // Puts a record after the others. What stands in memory stays as it is.
    fn put(&mut self, sealed: &Sealed) -> Result<(), CommitFault>
        requires whole { is_broken self.old ≡ false }
        ensures breaks { (is_broken self.new ≡ true) ↔ (result ≡ Err fault.Disk) }
        ensures is_put { IsPut (sealed_record sealed.now) (place_of self.old) (limit_of self.old)
            result }
        ensures same { standing_of self.new ≡ standing_of self.old }
        ensures untouched { LeavesDisk result self.old self.new }
        ensures limit { limit_of self.new ≡ limit_of self.old }
        ensures place { MovesGate (sealed_record sealed.now) result self.old self.new }
        ensures written { WritesRecord (sealed_record sealed.now) result self.old self.new }
        ensures holds { HoldsRecord (sealed_record sealed.now) result self.old self.new }
        ensures cause { IsDisksFault result self.old self.new }
        ensures unfailed { IsUnfailed result self.old self.new }
        ensures puts { PutsRecord (sealed_record sealed.now) self.old self.new }
        ensures acknowledged { KeepsRecord (sealed_record sealed.now) result self.old self.new }
    {
        match self.journal.put(sealed) {
            Ok(()) => Ok(()),
            Err(PutFault::Full { at, need, limit }) => {
                Err(CommitFault::Refused(Refusal::JournalFull(at, need, limit)))
            }
            Err(PutFault::Disk) => {
                self.broken = true;
                Err(CommitFault::Disk)
            }
        }
    }
}
