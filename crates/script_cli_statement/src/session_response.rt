//! The response to what a session asks for, and to SHOW CURSORS.

ghost use Rattle.std.specs.Prelude.{◌≡◌, ◌<◌, map, IfOk, OnOk, OnErr};
ghost use Rattle.std.specs.Io.KnownBytes.{Appends};
ghost use Rattle.relations_spec.specs.Spans.{forever};
ghost use Rattle.prima_io.specs.Causes.{HasCause};
ghost use Rattle.prima_io.specs.Moves.{AppendsPrefix};
ghost use Rattle.smo_ops_types.specs.Changes.{changes_of};
ghost use Rattle.smo_ops_spec.specs.Checks.{Fault};
ghost use Rattle.temporal_lang_types.specs.Queries.{query_of};
ghost use Rattle.sessions.specs.Kept.{kept_entries};
ghost use Rattle.sessions.specs.Lines.{line_of};
ghost use Rattle.sessions.specs.Meaning.{sessions_of};
ghost use Rattle.sessions.specs.Serving.{IsNoDisks};
ghost use Rattle.sessions.specs.Requests.{beginning, buffering, committing, aborting, opening};
ghost use Rattle.sessions.specs.Requests.{fetching, closing, request_of, IsTimely};
ghost use Rattle.script_cli_vault.specs.ArchiveOnDisk.{below};
ghost use Rattle.answer_text.specs.Texts.{listing_text, changed_text};
ghost use Rattle.answer_text.specs.SessionTexts.{cursors_text};
ghost use Rattle.script_cli_statement.specs.Given.{Given};
ghost use Rattle.script_cli_statement.specs.Replies.{Recorded, Reply, refused_or, session_reply};
ghost use Rattle.script_cli_statement.specs.Replies.{cursors_reply};
ghost use Rattle.script_cli_statement.specs.StopReasons.{StopCounted, SaidCounted};
ghost use Rattle.script_cli_statement.specs.declared.reply_kind.ReplyKind.TheVariants as ReplyKind;
ghost use Rattle.script_cli_statement.specs.Responses.{Says, Responds, RepresentsAt, TakesRecords};
ghost use Rattle.script_cli_statement.specs.SessionResponses.{without_error, IsFaultOf, IsRefused};

use crate::reply_kind::ReplyKind;
use crate::response::refuse;
use crate::stop_reason::{StopReason, or_write_fault};
use answer_text::{
    put_aborted, put_begun, put_buffered, put_changed, put_closed, put_count, put_cursor,
    put_empty, put_kept, put_opened,
};
use disk_model::Disk;
use prima_base::{Name, Refusal};
use prima_io::{Failed, Sink};
use script_cli_vault::{Archive, ArchiveVault, Rule, RuleBook};
use sessions::{KeptRow, SessionRequest, Sessions, VaultDone, VaultFault};
use smo_ops::Change;
use std::alloc::Global;
use temporal_lang_types::Query;

// A line that is no error was put, or the run stops.
fn without_error(put: Result<(), Failed>) -> Result<ReplyKind, StopReason>
    ensures { result ≡ without_error put }
{
    match put {
        Ok(()) => Ok(ReplyKind::NoError),
        Err(Failed) => Err(StopReason::WriteFault),
    }
}

// Puts the refusal of a request that calls no disk.
fn refuse_request<K: Sink>(sink: &mut K, fault: VaultFault) -> Result<ReplyKind, StopReason>
    requires { IsNoDisks fault }
    ensures says { (wrong : Fault) → (now : Recorded) → (reply : Reply) → IsFaultOf wrong fault
        → Says (refused_or wrong now reply) result (K.written sink.old) (K.written sink.new) }
    ensures counts { SaidCounted result (K.faults sink.old) (K.faults sink.new) }
    ensures refused { OnOk result (IsRefused fault) }
{
    match fault {
        VaultFault::Refused(refusal) => or_write_fault(refuse(sink, &refusal)),
        VaultFault::NoMemory => Err(StopReason::NoMemory),
        VaultFault::Broken => Err(StopReason::DiskFault),
        VaultFault::Disk => Err(StopReason::DiskFault),
    }
}

// Responds to BEGIN.
fn respond_begin<K: Sink, D: Disk, R: Rule>(
    alloc: Global,
    archive: &mut Archive<D>,
    book: &RuleBook<R>,
    sessions: &mut Sessions,
    sink: &mut K,
    session: u32,
) -> Result<ReplyKind, StopReason>
    ensures says { (given : Given) → (now : Recorded) → RepresentsAt archive.old given now
        → sessions_of sessions.old ≡ now.sessions
        → Says (session_reply given session beginning now) result (K.written sink.old)
        (K.written sink.new) }
    ensures sessions { (given : Given) → (now : Recorded) → RepresentsAt archive.old given now
        → sessions_of sessions.old ≡ now.sessions → OnOk result (sessions_of sessions.new
        ≡ (session_reply given session beginning now).after.sessions) }
    ensures kept { archive.new ≡ archive.old }
    ensures counts { SaidCounted result (K.faults sink.old) (K.faults sink.new) }
{
    let vault = ArchiveVault {
        alloc,
        archive,
        book,
    };
    match sessions.begin(session, &vault) {
        Ok(version) => without_error(put_begun(sink, version)),
        Err(fault) => refuse_request(sink, fault),
    }
}

// Responds to DO.
fn respond_do<K: Sink>(
    sessions: &mut Sessions,
    sink: &mut K,
    session: u32,
    changes: Vec<Change>,
) -> Result<ReplyKind, StopReason>
    ensures says { (given : Given) → (now : Recorded) → sessions_of sessions.old ≡ now.sessions
        → Says (session_reply given session (buffering (changes_of changes.items)) now) result
        (K.written sink.old) (K.written sink.new) }
    ensures sessions { (given : Given) → (now : Recorded)
        → sessions_of sessions.old ≡ now.sessions → OnOk result (sessions_of sessions.new
        ≡ (session_reply given session (buffering (changes_of changes.items)) now).after.sessions) }
    ensures counts { SaidCounted result (K.faults sink.old) (K.faults sink.new) }
{
    match sessions.buffer(session, changes) {
        Ok(count) => without_error(put_buffered(sink, count)),
        Err(fault) => refuse_request(sink, fault),
    }
}

// Puts the `ok` line of a transaction that was committed.
fn put_committed<K: Sink>(sink: &mut K, done: VaultDone) -> Result<ReplyKind, Failed>
    ensures ok { IfOk result (λ put. put ≡ ReplyKind.Command) }
    ensures all { OnOk result (Appends (K.written sink.old) (K.written sink.new)
        (changed_text done.stamp done.gained done.lost)) }
    ensures part { OnErr result (AppendsPrefix (K.written sink.old) (K.written sink.new)
        (changed_text done.stamp done.gained done.lost)) }
    ensures cause { HasCause (K.faults sink.old) (K.faults sink.new) result }
{
    match put_changed(sink, done.stamp, done.gained, done.lost) {
        Ok(()) => Ok(ReplyKind::Command),
        Err(Failed) => Err(Failed),
    }
}

// Responds to COMMIT: the record of its one command is put, or it is refused. No earlier call has
// failed, so that `Broken` never comes.
fn respond_commit<K: Sink, D: Disk, R: Rule>(
    alloc: Global,
    archive: &mut Archive<D>,
    book: &RuleBook<R>,
    sessions: &mut Sessions,
    sink: &mut K,
    session: u32,
    stamp: u64,
) -> Result<ReplyKind, StopReason>
    requires takes { TakesRecords archive.old }
    requires timely { stamp < forever }
    ensures replies { (given : Given) → (now : Recorded) → RepresentsAt archive.old given now
        → sessions_of sessions.old ≡ now.sessions
        → Responds given (session_reply given session (committing stamp) now) result archive.old
        archive.new (K.written sink.old) (K.written sink.new) }
    ensures sessions { (given : Given) → (now : Recorded) → RepresentsAt archive.old given now
        → sessions_of sessions.old ≡ now.sessions → OnOk result (sessions_of sessions.new
        ≡ (session_reply given session (committing stamp) now).after.sessions) }
    ensures takes { OnOk result (TakesRecords archive.new) }
    ensures counts { StopCounted result (K.faults sink.old) (K.faults sink.new)
        (below archive.old).faults (below archive.new).faults }
{
    let mut vault = ArchiveVault {
        alloc,
        archive,
        book,
    };
    match sessions.commit(session, stamp, &mut vault) {
        Ok(Some(done)) => or_write_fault(put_committed(sink, done)),
        Ok(None) => without_error(put_empty(sink)),
        Err(VaultFault::Refused(refusal)) => or_write_fault(refuse(sink, &refusal)),
        Err(VaultFault::Broken) => Err(StopReason::DiskFault),
        Err(VaultFault::Disk) => Err(StopReason::DiskFault),
        Err(VaultFault::NoMemory) => Err(StopReason::NoMemory),
    }
}

// Responds to ABORT.
fn respond_abort<K: Sink>(
    sessions: &mut Sessions,
    sink: &mut K,
    session: u32,
) -> Result<ReplyKind, StopReason>
    ensures says { (given : Given) → (now : Recorded) → sessions_of sessions.old ≡ now.sessions
        → Says (session_reply given session aborting now) result (K.written sink.old)
        (K.written sink.new) }
    ensures sessions { (given : Given) → (now : Recorded)
        → sessions_of sessions.old ≡ now.sessions → OnOk result (sessions_of sessions.new
        ≡ (session_reply given session aborting now).after.sessions) }
    ensures counts { SaidCounted result (K.faults sink.old) (K.faults sink.new) }
{
    match sessions.abort(session) {
        Ok(()) => without_error(put_aborted(sink)),
        Err(fault) => refuse_request(sink, fault),
    }
}

// Responds to OPEN.
fn respond_open<K: Sink, D: Disk, R: Rule>(
    alloc: Global,
    archive: &mut Archive<D>,
    book: &RuleBook<R>,
    sessions: &mut Sessions,
    sink: &mut K,
    session: u32,
    cursor: Name,
    query: &Query,
) -> Result<ReplyKind, StopReason>
    ensures says { (given : Given) → (now : Recorded) → RepresentsAt archive.old given now
        → sessions_of sessions.old ≡ now.sessions
        → Says (session_reply given session (opening cursor (query_of query.now)) now) result
        (K.written sink.old) (K.written sink.new) }
    ensures sessions { (given : Given) → (now : Recorded) → RepresentsAt archive.old given now
        → sessions_of sessions.old ≡ now.sessions → OnOk result (sessions_of sessions.new
        ≡ (session_reply given session (opening cursor (query_of query.now)) now).after.sessions) }
    ensures kept { archive.new ≡ archive.old }
    ensures counts { SaidCounted result (K.faults sink.old) (K.faults sink.new) }
{
    let vault = ArchiveVault {
        alloc,
        archive,
        book,
    };
    match sessions.open(session, cursor, query, &vault) {
        Ok(total) => without_error(put_opened(sink, total)),
        Err(fault) => refuse_request(sink, fault),
    }
}

// Puts the lines of entries, after their periods where these are told, and then how many they are.
fn put_entries<K: Sink>(sink: &mut K, rows: &[KeptRow], periods: bool) -> Result<ReplyKind, Failed>
    ensures ok { IfOk result (λ put. put ≡ ReplyKind.NoError) }
    ensures all { OnOk result (Appends (K.written sink.old) (K.written sink.new)
        (listing_text periods (kept_entries rows.now))) }
    ensures part { OnErr result (AppendsPrefix (K.written sink.old) (K.written sink.new)
        (listing_text periods (kept_entries rows.now))) }
    ensures cause { HasCause (K.faults sink.old) (K.faults sink.new) result }
{
    for row in rows {
        put_kept(sink, &row.values, row.period, periods)?;
    }
    put_count(sink, rows.len() as u64)?;
    Ok(ReplyKind::NoError)
}

// Responds to FETCH. It takes no memory.
fn respond_fetch<K: Sink>(
    sessions: &mut Sessions,
    sink: &mut K,
    session: u32,
    cursor: Name,
    count: u32,
) -> Result<ReplyKind, StopReason>
    ensures says { (given : Given) → (now : Recorded) → sessions_of sessions.old ≡ now.sessions
        → Says (session_reply given session (fetching cursor count) now) result
        (K.written sink.old) (K.written sink.new) }
    ensures sessions { (given : Given) → (now : Recorded)
        → sessions_of sessions.old ≡ now.sessions → OnOk result (sessions_of sessions.new
        ≡ (session_reply given session (fetching cursor count) now).after.sessions) }
    ensures counts { SaidCounted result (K.faults sink.old) (K.faults sink.new) }
{
    let periods = sessions.periods(session, &cursor).unwrap_or(true);
    match sessions.fetch(session, &cursor, count) {
        Some(rows) => or_write_fault(put_entries(sink, rows, periods)),
        None => or_write_fault(refuse(sink, &Refusal::NoCursor(session, cursor))),
    }
}

// Responds to CLOSE.
fn respond_close<K: Sink>(
    sessions: &mut Sessions,
    sink: &mut K,
    session: u32,
    cursor: &Name,
) -> Result<ReplyKind, StopReason>
    ensures says { (given : Given) → (now : Recorded) → sessions_of sessions.old ≡ now.sessions
        → Says (session_reply given session (closing cursor.now) now) result
        (K.written sink.old) (K.written sink.new) }
    ensures sessions { (given : Given) → (now : Recorded)
        → sessions_of sessions.old ≡ now.sessions → OnOk result (sessions_of sessions.new
        ≡ (session_reply given session (closing cursor.now) now).after.sessions) }
    ensures counts { SaidCounted result (K.faults sink.old) (K.faults sink.new) }
{
    match sessions.close(session, cursor) {
        Ok(()) => without_error(put_closed(sink)),
        Err(fault) => refuse_request(sink, fault),
    }
}

/// Responds to what a session asks for.
pub(crate) fn respond_session<K: Sink, D: Disk, R: Rule>(
    alloc: Global,
    archive: &mut Archive<D>,
    book: &RuleBook<R>,
    sessions: &mut Sessions,
    sink: &mut K,
    session: u32,
    request: SessionRequest,
) -> Result<ReplyKind, StopReason>
    requires takes { TakesRecords archive.old }
    requires timely { IsTimely (request_of request) }
    ensures replies { (given : Given) → (now : Recorded) → RepresentsAt archive.old given now
        → sessions_of sessions.old ≡ now.sessions
        → Responds given (session_reply given session (request_of request) now) result archive.old
        archive.new (K.written sink.old) (K.written sink.new) }
    ensures sessions { (given : Given) → (now : Recorded) → RepresentsAt archive.old given now
        → sessions_of sessions.old ≡ now.sessions → OnOk result (sessions_of sessions.new
        ≡ (session_reply given session (request_of request) now).after.sessions) }
    ensures takes { OnOk result (TakesRecords archive.new) }
    ensures counts { StopCounted result (K.faults sink.old) (K.faults sink.new)
        (below archive.old).faults (below archive.new).faults }
{
    match request {
        SessionRequest::Begin => respond_begin(alloc, archive, book, sessions, sink, session),
        SessionRequest::Do(changes) => respond_do(sessions, sink, session, changes),
        SessionRequest::Commit(stamp) => {
            respond_commit(alloc, archive, book, sessions, sink, session, stamp)
        }
        SessionRequest::Abort => respond_abort(sessions, sink, session),
        SessionRequest::Open(cursor, query) => {
            respond_open(
                alloc, archive, book, sessions, sink, session, cursor, &query,
            )
        }
        SessionRequest::Fetch(cursor, count) => {
            respond_fetch(sessions, sink, session, cursor, count)
        }
        SessionRequest::Close(cursor) => respond_close(sessions, sink, session, &cursor),
    }
}

// Puts the lines of the open cursors, and then how many they are.
fn put_cursors<K: Sink>(sink: &mut K, sessions: &Sessions) -> Result<ReplyKind, Failed>
    ensures ok { IfOk result (λ put. put ≡ ReplyKind.NoError) }
    ensures all { OnOk result (Appends (K.written sink.old) (K.written sink.new)
        (cursors_text (map line_of (sessions_of sessions.now).cursors))) }
    ensures part { OnErr result (AppendsPrefix (K.written sink.old) (K.written sink.new)
        (cursors_text (map line_of (sessions_of sessions.now).cursors))) }
    ensures cause { HasCause (K.faults sink.old) (K.faults sink.new) result }
{
    let count = sessions.cursors();
    for i in 0..count {
        if let Some(line) = sessions.cursor(i) {
            put_cursor(sink, line.session, line.name, line.fetched, line.total)?;
        }
    }
    put_count(sink, count as u64)?;
    Ok(ReplyKind::NoError)
}

/// Responds to SHOW CURSORS. It takes no memory.
pub(crate) fn respond_cursors<K: Sink>(
    sessions: &Sessions,
    sink: &mut K,
) -> Result<ReplyKind, StopReason>
    ensures says { (now : Recorded) → sessions_of sessions.now ≡ now.sessions
        → Says (cursors_reply now) result (K.written sink.old) (K.written sink.new) }
    ensures counts { SaidCounted result (K.faults sink.old) (K.faults sink.new) }
{
    or_write_fault(put_cursors(sink, sessions))
}
