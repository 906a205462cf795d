//! The response to one statement: what the archive accepts of it, and the reply that is put.
//!
//! The `ok` line of a command, of a COMMIT or of a checkpoint is put when its record is on the
//! disk; a refused statement leaves the archive and the sessions as they were. The disk is called
//! for these alone, before anything of the reply is put.

ghost use Rattle.std.specs.Prelude.{◌≡◌, ◌≤◌, ◌^◌, ℕ, length, map, true, false, OnOk, OnErr};
ghost use Rattle.std.specs.Prelude.{IfOk};
ghost use Rattle.std.specs.Io.KnownBytes.{Appends};
ghost use Rattle.prima_base.specs.Timed.{entries_of};
ghost use Rattle.prima_io.specs.Causes.{HasCause};
ghost use Rattle.prima_io.specs.Moves.{AppendsPrefix};
ghost use Rattle.smo_ops_types.specs.Commands.{command_of};
ghost use Rattle.smo_ops_spec.specs.Past.{Past};
ghost use Rattle.temporal_lang_types.specs.Queries.{query_of};
ghost use Rattle.sessions.specs.Meaning.{sessions_of};
ghost use Rattle.script_parse.specs.Statements.{statement_of};
ghost use Rattle.script_cli_vault.specs.ArchiveOnDisk.{book_meaning};
ghost use Rattle.piece_ir.specs.ExplainedPieces.{all_explained};
ghost use Rattle.version_groups.specs.Representation.{Represents};
ghost use Rattle.script_cli_vault.specs.ArchiveOnDisk.{RepresentsPast, standing_of, below};
ghost use Rattle.script_cli_vault.specs.ArchiveOnDisk.{limit_of};
ghost use Rattle.answer_text.specs.RefusalTexts.{refusal_text};
ghost use Rattle.answer_text.specs.Texts.{listing_text, explain_text, sizes_text};
ghost use Rattle.script_cli_statement.specs.Given.{Given};
ghost use Rattle.script_cli_statement.specs.Replies.{Recorded, reply, answered, done_text};
ghost use Rattle.script_cli_statement.specs.Replies.{command_reply, query_reply, explain_reply};
ghost use Rattle.script_cli_statement.specs.Replies.{versions_reply, schema_reply, sizes_reply};
ghost use Rattle.script_cli_statement.specs.Replies.{statement_reply};
ghost use Rattle.script_cli_statement.specs.SessionResponses.{IsTimelyStatement};
ghost use Rattle.script_cli_statement.specs.StopReasons.{StopCounted, SaidCounted};
ghost use Rattle.script_cli_statement.specs.declared.reply_kind.ReplyKind.TheVariants as ReplyKind;
ghost use Rattle.script_cli_statement.specs.Responses.{Says, Responds, RepresentsAt, TakesRecords};

use crate::aggregate_response::respond_aggregate;
use crate::checkpoint::respond_checkpoint;
use crate::pair_response::respond_pairs;
use crate::reply_kind::ReplyKind;
use crate::session_response::{respond_cursors, respond_session};
use crate::stop_reason::{StopReason, or_write_fault};
use answer_text::{
    Listing, PutStop, put_changed, put_count, put_evolved, put_explained, put_listing, put_refusal,
    put_schema, put_size, put_versions,
};
use disk_model::Disk;
use piece_ir::Explained;
use prima_base::Refusal;
use prima_base::limits::MAX_VERSIONS;
use prima_io::{Failed, Sink};
use script_cli_vault::{Archive, AskFault, CommitFault, Done, Rule, RuleBook, ask_counted};
use script_parse::{ReadFault, Statement, next_statement};
use sessions::Sessions;
use smo_ops::Command;
use std::alloc::Global;
use std::marker::Brand;
use std::sync::ledger::Blank;
use temporal_lang_types::Query;
use version_groups::{Groups, lifelines_are_few};

// A version begins at most two.
const MOST_LIFELINES: u32 = 2 * MAX_VERSIONS as u32;

/// Puts the line of a refusal.
pub fn refuse<K: Sink>(sink: &mut K, refusal: &Refusal) -> Result<ReplyKind, Failed>
    ensures ok { IfOk result (λ put. put ≡ ReplyKind.ErrorLine) }
    ensures all { OnOk result (Appends (K.written sink.old) (K.written sink.new)
        (refusal_text refusal.now)) }
    ensures part { OnErr result (AppendsPrefix (K.written sink.old) (K.written sink.new)
        (refusal_text refusal.now)) }
    ensures cause { HasCause (K.faults sink.old) (K.faults sink.new) result }
{
    match put_refusal(sink, refusal) {
        Ok(()) => Ok(ReplyKind::ErrorLine),
        Err(Failed) => Err(Failed),
    }
}

// Puts the `ok` line of an accepted command.
fn put_done<K: Sink>(sink: &mut K, done: Done) -> Result<ReplyKind, Failed>
    ensures ok { IfOk result (λ put. put ≡ ReplyKind.Command) }
    ensures all { OnOk result (Appends (K.written sink.old) (K.written sink.new) (done_text done)) }
    ensures part { OnErr result (AppendsPrefix (K.written sink.old) (K.written sink.new)
        (done_text done)) }
    ensures cause { HasCause (K.faults sink.old) (K.faults sink.new) result }
{
    let put = match done.version {
        None => put_changed(sink, done.stamp, done.gained, done.lost),
        Some(version) => put_evolved(sink, done.stamp, version),
    };
    match put {
        Ok(()) => Ok(ReplyKind::Command),
        Err(Failed) => Err(Failed),
    }
}

// Responds to a command: its record is put and it is accepted, or it is refused by the first
// refusal in the one order. No earlier call has failed, so that `Broken` never comes.
fn respond_write<K: Sink, D: Disk>(
    archive: &mut Archive<D>,
    sink: &mut K,
    command: Command,
) -> Result<ReplyKind, StopReason>
    requires takes { TakesRecords archive.old }
    ensures replies { (limit : Given) → (now : Recorded) → RepresentsAt archive.old limit now
        → Responds limit (command_reply limit (command_of command) now) result archive.old
        archive.new (K.written sink.old) (K.written sink.new) }
    ensures takes { OnOk result (TakesRecords archive.new) }
    ensures counts { StopCounted result (K.faults sink.old) (K.faults sink.new)
        (below archive.old).faults (below archive.new).faults }
{
    match archive.commit(command) {
        Ok(done) => or_write_fault(put_done(sink, done)),
        Err(CommitFault::Refused(refusal)) => or_write_fault(refuse(sink, &refusal)),
        Err(CommitFault::Broken) => Err(StopReason::DiskFault),
        Err(CommitFault::Disk) => Err(StopReason::DiskFault),
        Err(CommitFault::NoMemory) => Err(StopReason::NoMemory),
    }
}

// Puts the lines of an answer.
fn put_query_answer<K: Sink>(sink: &mut K, listing: &Listing<'_>) -> Result<ReplyKind, Failed>
    ensures ok { IfOk result (λ put. put ≡ ReplyKind.NoError) }
    ensures all { OnOk result (Appends (K.written sink.old) (K.written sink.new)
        (listing_text listing.now.periods (entries_of listing.now.rows.items))) }
    ensures part { OnErr result (AppendsPrefix (K.written sink.old) (K.written sink.new)
        (listing_text listing.now.periods (entries_of listing.now.rows.items))) }
    ensures cause { HasCause (K.faults sink.old) (K.faults sink.new) result }
{
    match put_listing(sink, listing) {
        Ok(()) => Ok(ReplyKind::NoError),
        Err(Failed) => Err(Failed),
    }
}

// Puts the lines of EXPLAIN.
fn put_pieces<K: Sink>(
    alloc: Global,
    sink: &mut K,
    pieces: &[Explained],
) -> Result<ReplyKind, StopReason>
    ensures says { (now : Recorded) → Says (answered (explain_text (all_explained pieces.now)) now)
        result (K.written sink.old) (K.written sink.new) }
    ensures counts { SaidCounted result (K.faults sink.old) (K.faults sink.new) }
{
    match put_explained(alloc, sink, pieces) {
        Ok(()) => Ok(ReplyKind::NoError),
        Err(PutStop::WriteFault) => Err(StopReason::WriteFault),
        Err(PutStop::NoMemory) => Err(StopReason::NoMemory),
    }
}

// Responds to a query.
fn respond_ask<K: Sink, D: Disk, R: Rule>(
    archive: &Archive<D>,
    book: &RuleBook<R>,
    sink: &mut K,
    query: &Query,
) -> Result<ReplyKind, StopReason>
    ensures says { (now : Recorded) → RepresentsPast (standing_of archive.now) now.past
        → Says (query_reply (query_of query.now) now) result (K.written sink.old)
        (K.written sink.new) }
    ensures counts { SaidCounted result (K.faults sink.old) (K.faults sink.new) }
{
    match ask_counted::<D, Brand, R>(archive, book, query, Blank::new(1)) {
        Ok(listing) => or_write_fault(put_query_answer(sink, &listing)),
        Err(AskFault::Refused(refusal)) => or_write_fault(refuse(sink, &refusal)),
        Err(AskFault::NoMemory) => Err(StopReason::NoMemory),
    }
}

// Responds to EXPLAIN: the pieces that the query reads are told, and none is read.
fn respond_explain<K: Sink, D: Disk, R: Rule>(
    alloc: Global,
    archive: &Archive<D>,
    book: &RuleBook<R>,
    sink: &mut K,
    query: &Query,
) -> Result<ReplyKind, StopReason>
    ensures says { (now : Recorded) → RepresentsPast (standing_of archive.now) now.past
        → Says (explain_reply (book_meaning R.Rule book.now)
        (query_of query.now) now) result (K.written sink.old) (K.written sink.new) }
    ensures counts { SaidCounted result (K.faults sink.old) (K.faults sink.new) }
{
    match archive.explain(book, query) {
        Ok(pieces) => put_pieces(alloc, sink, &pieces),
        Err(AskFault::Refused(refusal)) => or_write_fault(refuse(sink, &refusal)),
        Err(AskFault::NoMemory) => Err(StopReason::NoMemory),
    }
}

// Responds to SHOW VERSIONS.
fn respond_versions<K: Sink, D: Disk>(
    alloc: Global,
    archive: &Archive<D>,
    sink: &mut K,
) -> Result<ReplyKind, StopReason>
    ensures says { (now : Recorded) → RepresentsPast (standing_of archive.now) now.past
        → Says (versions_reply now) result (K.written sink.old) (K.written sink.new) }
    ensures counts { SaidCounted result (K.faults sink.old) (K.faults sink.new) }
{
    match put_versions(alloc, sink, &archive.groups().versions().list) {
        Ok(()) => Ok(ReplyKind::NoError),
        Err(PutStop::WriteFault) => Err(StopReason::WriteFault),
        Err(PutStop::NoMemory) => Err(StopReason::NoMemory),
    }
}

// Responds to SHOW SCHEMA.
fn respond_schema<K: Sink, D: Disk>(
    alloc: Global,
    archive: &Archive<D>,
    sink: &mut K,
    version: u32,
) -> Result<ReplyKind, StopReason>
    ensures says { (now : Recorded) → RepresentsPast (standing_of archive.now) now.past
        → Says (schema_reply version now) result (K.written sink.old) (K.written sink.new) }
    ensures counts { SaidCounted result (K.faults sink.old) (K.faults sink.new) }
{
    let groups = archive.groups();
    match groups.schema(version) {
        Some(schema) => match put_schema(alloc, sink, schema) {
            Ok(()) => Ok(ReplyKind::NoError),
            Err(PutStop::WriteFault) => Err(StopReason::WriteFault),
            Err(PutStop::NoMemory) => Err(StopReason::NoMemory),
        },
        None => or_write_fault(refuse(sink, &Refusal::NoVersion(version, groups.newest()))),
    }
}

// How many lifelines there are.
fn count_lifelines(groups: &Groups) -> u32
    ensures { (past : Past) → Represents groups.now past → result ≡ length past.sizes }
{
    lifelines_are_few();
    for i in 0..MOST_LIFELINES {
        if groups.size(i).is_none() {
            return i;
        }
    }
    MOST_LIFELINES
}

// Puts the lines of the lifelines, which are so many.
fn put_lifelines<K: Sink>(sink: &mut K, groups: &Groups, count: u32) -> Result<ReplyKind, Failed>
    ensures ok { IfOk result (λ put. put ≡ ReplyKind.NoError) }
    ensures all { (past : Past) → Represents groups.now past → count ≡ length past.sizes
        → OnOk result (Appends (K.written sink.old) (K.written sink.new)
        (sizes_text (length past.versions) past.sizes)) }
    ensures part { (past : Past) → Represents groups.now past → count ≡ length past.sizes
        → OnErr result (AppendsPrefix (K.written sink.old) (K.written sink.new)
        (sizes_text (length past.versions) past.sizes)) }
    ensures cause { HasCause (K.faults sink.old) (K.faults sink.new) result }
{
    for i in 0..count {
        if let Some(line) = groups.size(i) {
            put_size(
                sink, line.table, line.first, line.last, line.keys, line.cells,
            )?;
        }
    }
    put_count(sink, u64::from(count))?;
    Ok(ReplyKind::NoError)
}

// Responds to SHOW SIZES.
fn respond_sizes<K: Sink, D: Disk>(
    archive: &Archive<D>,
    sink: &mut K,
) -> Result<ReplyKind, StopReason>
    ensures says { (now : Recorded) → RepresentsPast (standing_of archive.now) now.past
        → Says (sizes_reply now) result (K.written sink.old) (K.written sink.new) }
    ensures counts { SaidCounted result (K.faults sink.old) (K.faults sink.new) }
{
    let groups = archive.groups();
    let count = count_lifelines(groups);
    or_write_fault(put_lifelines(sink, groups, count))
}

// Responds to what was read.
fn respond_statement<K: Sink, D: Disk, R: Rule>(
    alloc: Global,
    archive: &mut Archive<D>,
    book: &RuleBook<R>,
    sessions: &mut Sessions,
    sink: &mut K,
    statement: Statement,
) -> Result<ReplyKind, StopReason>
    requires takes { TakesRecords archive.old }
    requires timely { IsTimelyStatement (statement_of statement) }
    ensures replies { (limit : Given) → limit.book
        ≡ book_meaning R.Rule book.now → (now : Recorded)
        → RepresentsAt archive.old limit now → sessions_of sessions.old ≡ now.sessions
        → Responds limit (statement_reply limit (statement_of statement) now) result archive.old
        archive.new (K.written sink.old) (K.written sink.new) }
    ensures sessions { (limit : Given) → (now : Recorded)
        → RepresentsAt archive.old limit now → sessions_of sessions.old ≡ now.sessions
        → OnOk result (sessions_of sessions.new
        ≡ (statement_reply limit (statement_of statement) now).after.sessions) }
    ensures takes { OnOk result (TakesRecords archive.new) }
    ensures counts { StopCounted result (K.faults sink.old) (K.faults sink.new)
        (below archive.old).faults (below archive.new).faults }
{
    match statement {
        Statement::Write(command) => respond_write(archive, sink, command),
        Statement::Ask(query) => respond_ask(archive, book, sink, &query),
        Statement::Explain(query) => respond_explain(alloc, archive, book, sink, &query),
        Statement::Pairs(left, relation, right) => {
            respond_pairs(archive, book, sink, &left, relation, &right)
        }
        Statement::Aggregate(items, group, query) => {
            respond_aggregate(alloc, archive, book, sink, &items, group, &query)
        }
        Statement::Session(session, request) => {
            respond_session(alloc, archive, book, sessions, sink, session, request)
        }
        Statement::ShowVersions => respond_versions(alloc, archive, sink),
        Statement::ShowSchema(version) => respond_schema(alloc, archive, sink, version),
        Statement::ShowSizes => respond_sizes(archive, sink),
        Statement::ShowCursors => respond_cursors(sessions, sink),
        Statement::Checkpoint => respond_checkpoint(archive, sink),
    }
}

/// The response to the statement of these bytes, over an archive and the sessions that share it; it
/// answers what was put.
#[tactic(auto, unfolding(crate::specs::Replies::reply))]
pub fn respond<K: Sink, D: Disk, R: Rule>(
    alloc: Global,
    archive: &mut Archive<D>,
    book: &RuleBook<R>,
    sessions: &mut Sessions,
    sink: &mut K,
    text: &[u8],
) -> Result<ReplyKind, StopReason>
    requires short { length text.now ≤ 1048576 }
    requires takes { TakesRecords archive.old }
    ensures replies { (limit : Given) → limit.book
        ≡ book_meaning R.Rule book.now → (now : Recorded)
        → RepresentsAt archive.old limit now → sessions_of sessions.old ≡ now.sessions
        → Responds limit (reply limit now text.now) result archive.old archive.new
        (K.written sink.old) (K.written sink.new) }
    // after Ok the sessions have what the reply leaves them
    ensures sessions { (limit : Given) → (now : Recorded)
        → RepresentsAt archive.old limit now → sessions_of sessions.old ≡ now.sessions
        → OnOk result (sessions_of sessions.new ≡ (reply limit now text.now).after.sessions) }
    ensures takes { OnOk result (TakesRecords archive.new) }
    ensures counts { StopCounted result (K.faults sink.old) (K.faults sink.new)
        (below archive.old).faults (below archive.new).faults }
{
    match next_statement(alloc, text) {
        Ok(None) => Ok(ReplyKind::NoError),
        Ok(Some(statement)) => respond_statement(alloc, archive, book, sessions, sink, statement),
        Err(ReadFault::Syntax(at)) => or_write_fault(refuse(sink, &Refusal::Syntax(at))),
        Err(ReadFault::TooMany(what, limit)) => or_write_fault(refuse(
            sink,
            &Refusal::TooMany(what, limit),
        )),
        Err(ReadFault::NoMemory) => Err(StopReason::NoMemory),
    }
}
