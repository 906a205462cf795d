//! The sample: its script is made from its size, run over the archive, and told by a summary of its
//! replies.

ghost use Rattle.std.specs.Prelude.{◌≡◌, ◌+◌, ℕ, List, Option};
ghost use Rattle.disk_model.specs.Moments.{GoesOn};
ghost use Rattle.script_cli_statement.specs.ArchiveOnDisk.{book_meaning, below, place_of};
ghost use Rattle.script_cli_sample.specs.Statements.{sample_script};
ghost use Rattle.script_cli_sample.specs.Summary as spec;
ghost use Rattle.script_cli_statement.specs.Given.{Given};
ghost use Rattle.script_cli_statement.specs.Replies.{Recorded, IsFresh};
ghost use Rattle.script_cli_statement.specs.StopReasons.{SaidCounted};
ghost use Rattle.script_cli.specs.Runs.{SinkCounted, DiskCounted, given_by, is_whole};
ghost use Rattle.script_cli_statement.specs.Responses.{RepresentsAt, TakesRecords};
ghost use Rattle.script_cli.specs.Sampling.{SamplesOver, RanSample, PutsSummary, stop_of};

use crate::disk_run::{mount_counted, refuse_file};
use crate::driver::{drive, status_of};
use crate::kept_reply::RepliesKept;
use crate::status::Status;
use archive_core_file_spec::a_file_opens_or_is_damaged;
use disk_model::Disk;
use prima_base::NoMemory;
use prima_io::{Failed, Sink, put_all};
use script_cli_sample::{SampleSource, summary};
use script_cli_statement::{Archive, Rule, RuleBook, StopReason};
use std::alloc::Global;
use std::marker::Brand;
use std::sync::ledger::Blank;

// Puts the summary of these replies, after so many commands and so many that were put. There is no
// memory for more commands than a number can count.
fn tell<K: Sink>(
    alloc: Global,
    size: u32,
    commands: u64,
    puts: u64,
    replies: &[u8],
    sink: &mut K,
) -> Result<(), StopReason>
    ensures told { PutsSummary result (spec.summary size (commands + puts) replies.now)
        (K.written sink.old) (K.written sink.new) }
    ensures counts { SaidCounted result (K.faults sink.old) (K.faults sink.new) }
{
    let Some(commands) = commands.checked_add(puts) else {
        return Err(StopReason::NoMemory);
    };
    match summary(alloc, size, commands, replies) {
        Ok(text) => match put_all(sink, &text) {
            Ok(()) => Ok(()),
            Err(Failed) => Err(StopReason::WriteFault),
        },
        Err(NoMemory) => Err(StopReason::NoMemory),
    }
}

// Whether a script was read to its end.
fn is_whole(status: Status) -> bool
    ensures { result ≡ is_whole status }
{
    match status {
        Status::Done => true,
        Status::Refused => true,
        _ => false,
    }
}

// How a sample ends whose script was not read to its end. Its source and the sink of its replies
// fail only when out of memory, and its script is far shorter than the limit of one.
fn stop_of(status: Status) -> Status
    ensures { result ≡ stop_of status }
{
    match status {
        Status::DiskFault => Status::DiskFault,
        _ => Status::NoMemory,
    }
}

// Runs the script of this size over an archive that has so many commands, and tells its replies.
fn sample<K: Sink, D: Disk, R: Rule>(
    alloc: Global,
    archive: &mut Archive<D>,
    commands: u64,
    size: u32,
    book: &RuleBook<R>,
    sink: &mut K,
) -> Status
    requires takes { TakesRecords archive.old }
    ensures ran_script { (limit : Given) → limit.book
        ≡ book_meaning R.Rule book.now → (start : Recorded)
        → RepresentsAt archive.old limit start → IsFresh start
        → RanSample size limit (sample_script size) start commands result (K.written sink.old)
        (K.written sink.new) (below archive.old) (below archive.new) (place_of archive.old) }
    ensures sink { SinkCounted result (K.faults sink.old) (K.faults sink.new) }
    ensures disk { DiskCounted result (below archive.old).faults (below archive.new).faults }
{
    let mut source = SampleSource::new(alloc, size);
    let mut kept = RepliesKept::new(alloc);
    let driven = drive(alloc, archive, book, &mut source, &mut kept);
    if !is_whole(driven.status) {
        return stop_of(driven.status);
    }
    match tell(alloc, size, commands, driven.puts, kept.bytes(), sink) {
        Ok(()) => driven.status,
        Err(reason) => status_of(reason),
    }
}

/// Opens the archive on the disk, runs the script of this size over it, and puts the summary of its
/// replies. It hands the disk back as it then stands. Whatever is left in a source, nothing is
/// taken of it.
pub(crate) fn sample_over<K: Sink, D: Disk, R: Rule>(
    alloc: Global,
    limit: u64,
    size: u32,
    book: &RuleBook<R>,
    sink: &mut K,
    disk: D,
) -> (Status, D)
    ensures goes { GoesOn (D.meaning disk) (D.meaning result.1) }
    ensures samples { (left : Option (List ℕ))
        → SamplesOver size (given_by limit (book_meaning R.Rule book.now))
        result.0 left left (K.written sink.old) (K.written sink.new) (K.faults sink.old)
        (K.faults sink.new)
        (D.meaning disk) (D.meaning result.1) }
    ensures sink { SinkCounted result.0 (K.faults sink.old) (K.faults sink.new) }
    ensures disk { DiskCounted result.0 (D.meaning disk).faults (D.meaning result.1).faults }
{
    a_file_opens_or_is_damaged();
    match mount_counted::<D, Brand>(alloc, disk, limit, Blank::new(1)) {
        Err((disk, fault)) => (refuse_file(sink, fault), disk),
        Ok((mut archive, opened)) => {
            let status = sample(alloc, &mut archive, opened.commands, size, book, sink);
            (status, archive.into_disk())
        }
    }
}
