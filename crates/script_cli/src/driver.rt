//! A script, read from its source to its end over an open archive.

ghost use Rattle.std.specs.Prelude.{◌≡◌, ◌+◌, ◌<◌, ◌≤◌, ℕ, length, take, false, IfOk, MatchResult};
ghost use Rattle.std.specs.Io.KnownBytes.{Consumes, IsAtEnd, Keeps};
ghost use Rattle.prima_io.specs.Causes.{HasCause};
ghost use Rattle.script_cli_statement.specs.ArchiveOnDisk.{book_meaning, below, place_of};
ghost use Rattle.script_cli_statement.specs.Given.{Given};
ghost use Rattle.script_cli_statement.specs.Replies.{Recorded, IsFresh};
ghost use Rattle.script_cli.specs.Runs.{SourceCounted, SinkCounted, DiskCounted};
ghost use Rattle.script_cli_statement.specs.Responses.{RepresentsAt, TakesRecords};
ghost use Rattle.script_cli.specs.Driving.{RanScript, Ends, CountsPuts, status_of};

use crate::SCRIPT_LIMIT;
use crate::script_run::ScriptRun;
use crate::status::Status;
use disk_model::Disk;
use prima_io::{Failed, Sink, Source};
use script_cli_statement::{Archive, ReplyKind, Rule, RuleBook, StopReason};
use std::alloc::Global;

const CHUNK: usize = 4096;

// How many bytes the next take may hand out: up to the limit, and at the limit one.
fn room_for(count: u64) -> usize
    requires { count ≤ SCRIPT_LIMIT }
    ensures some { 0 < result }
    ensures chunk { result ≤ CHUNK }
    ensures within { count < SCRIPT_LIMIT → count + result ≤ SCRIPT_LIMIT }
    ensures last { count ≡ SCRIPT_LIMIT → result ≡ 1 }
{
    if count < SCRIPT_LIMIT {
        (SCRIPT_LIMIT - count).min(CHUNK as u64) as usize
    } else {
        1
    }
}

// Takes at most so many bytes into the start of the chunk.
fn take_some<S: Source>(source: &mut S, chunk: &mut [u8], room: usize) -> Result<usize, Failed>
    requires some { 0 < room }
    requires fits { room ≤ length chunk.old }
    ensures bound { IfOk result (λ n. n ≤ room) }
    ensures bytes { MatchResult result
        (λ n. Consumes (S.left source.old) (S.left source.new) (take n chunk.new)
        × (n ≡ 0 → IsAtEnd (S.left source.new)))
        (λ _. Keeps (S.left source.old) (S.left source.new)) }
    ensures cause { HasCause (S.faults source.old) (S.faults source.new) result }
{
    source.take(&mut chunk[..room])
}

// Puts what is due at the script's end.
fn finish<K: Sink>(script_run: ScriptRun, sink: &mut K) -> Status
    requires { script_run.splitter.spent ≡ false }
    ensures ends { Ends result script_run (K.written sink.old) (K.written sink.new) }
    ensures sink { SinkCounted result (K.faults sink.old) (K.faults sink.new) }
{
    match script_run.finish(sink) {
        Ok(ReplyKind::ErrorLine) => Status::Refused,
        Ok(ReplyKind::NoError | ReplyKind::Command) => Status::Done,
        Err(Failed) => Status::WriteFault,
    }
}

/// How a run ends that stops before the script's end.
pub(crate) fn status_of(reason: StopReason) -> Status
    ensures { result ≡ status_of reason }
{
    match reason {
        StopReason::WriteFault => Status::WriteFault,
        StopReason::DiskFault => Status::DiskFault,
        StopReason::NoMemory => Status::NoMemory,
    }
}

/// How the reading of a script ended, and how many commands it put.
#[derive(Clone, Copy)]
pub(crate) struct Driven {
    pub(crate) status: Status,
    pub(crate) puts: u64,
}

/// Reads the script to its end, the limit or a fault. Each turn takes a byte at least, or is the
/// last.
pub(crate) fn drive<S: Source, K: Sink, D: Disk, R: Rule>(
    alloc: Global,
    archive: &mut Archive<D>,
    book: &RuleBook<R>,
    source: &mut S,
    sink: &mut K,
) -> Driven
    requires takes { TakesRecords archive.old }
    ensures ran_script { (limit : Given) → limit.book
        ≡ book_meaning R.Rule book.now → (start : Recorded)
        → RepresentsAt archive.old limit start → IsFresh start
        → RanScript limit start result.status (S.left source.old) (S.left source.new)
        (K.written sink.old) (K.written sink.new) (below archive.old) (below archive.new)
        (place_of archive.old) }
    ensures counted { (limit : Given) → limit.book
        ≡ book_meaning R.Rule book.now → (start : Recorded)
        → RepresentsAt archive.old limit start → IsFresh start
        → CountsPuts result.status limit start (S.left source.old) result.puts }
    ensures source { SourceCounted result.status (S.faults source.old) (S.faults source.new) }
    ensures sink { SinkCounted result.status (K.faults sink.old) (K.faults sink.new) }
    ensures disk { DiskCounted result.status (below archive.old).faults (below archive.new).faults }
{
    let mut script_run = ScriptRun::new(alloc);
    let mut chunk = [0u8; CHUNK];
    let mut count: u64 = 0;
    'turns: loop {
        let puts = script_run.puts();
        let room = room_for(count);
        let taken = match take_some(source, &mut chunk, room) {
            Ok(taken) => taken,
            Err(Failed) => {
                return Driven {
                    status: Status::ReadFault,
                    puts,
                };
            }
        };
        if taken == 0 {
            let status = finish(script_run, sink);
            return Driven { status, puts };
        }
        if count == SCRIPT_LIMIT {
            return Driven {
                status: Status::InputLimit,
                puts,
            };
        }
        match script_run.feed(archive, book, sink, &chunk[..taken]) {
            Ok(()) => count += taken as u64,
            Err(reason) => {
                return Driven {
                    status: status_of(reason),
                    puts,
                };
            }
        }
    }
}
