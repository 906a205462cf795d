//! An archive, opened over a disk before the script is read.

ghost use Rattle.std.specs.Prelude.{◌≡◌, ◌<◌, IfOk, IfErr};
ghost use Rattle.disk_model.specs.Moments.{GoesOn};
ghost use Rattle.script_cli_statement.specs.ArchiveOnDisk.{book_meaning};
ghost use Rattle.script_cli.specs.Driving.{HasOpened, HasNotOpened, CountsOpening, PutsUnopened};
ghost use Rattle.script_cli.specs.Driving.{status_of_fault};
ghost use Rattle.script_cli.specs.Runs.{RunsOver, given_by, SourceCounted, SinkCounted};
ghost use Rattle.script_cli.specs.Runs.{DiskCounted};

use crate::driver::drive;
use crate::status::Status;
use answer_text::put_not_a_journal;
use archive_core_file_spec::a_file_opens_or_is_damaged;
use disk_model::Disk;
use prima_base::Steps;
use prima_base_counter::fresh_steps;
use prima_io::{Sink, Source};
use script_cli_statement::{Archive, MountFault, Opened, Rule, RuleBook};
use std::alloc::Global;
use std::marker::Brand;
use std::sync::ledger::{Blank, Ledger};

/// The archive on the disk, with a counter of the ledger.
pub(crate) fn mount_counted<D: Disk, L: Ledger>(
    alloc: Global,
    disk: D,
    limit: u64,
    blank: Blank,
) -> Result<(Archive<D>, Opened), (D, MountFault)>
    requires name { blank.name ≡ L.name }
    requires parts { blank.parts ≡ L.parts }
    requires some { 0 < blank.parts }
    ensures opened { IfOk result (λ it. HasOpened (D.meaning disk) limit it.0) }
    ensures commands { IfOk result (λ it. CountsOpening (D.meaning disk).seen it.1.commands) }
    ensures fault { IfErr result (λ it. HasNotOpened (D.meaning disk) (D.meaning it.0) it.1) }
{
    a_file_opens_or_is_damaged();
    let mut steps: Steps<L> = fresh_steps(blank);
    match Archive::mount(alloc, disk, limit, &mut steps) {
        Ok((archive, opened)) => Ok((archive, opened)),
        Err((disk, fault)) => Err((disk, fault)),
    }
}

/// Ends a run whose file was not opened; of a damaged file the place is told.
pub(crate) fn refuse_file<K: Sink>(sink: &mut K, fault: MountFault) -> Status
    ensures status { result ≡ status_of_fault fault }
    ensures told { PutsUnopened fault (K.written sink.old) (K.written sink.new) (K.faults sink.old)
        (K.faults sink.new) }
    ensures sink { SinkCounted result (K.faults sink.old) (K.faults sink.new) }
{
    match fault {
        MountFault::Disk => Status::DiskFault,
        MountFault::Damaged(place) => {
            let _put = put_not_a_journal(sink, place);
            Status::NotAJournal(place)
        }
        MountFault::NoMemory => Status::NoMemory,
    }
}

/// Opens the archive on the disk, and reads the script. It hands the disk back as it then stands.
pub(crate) fn run_over<S: Source, K: Sink, D: Disk, R: Rule>(
    alloc: Global,
    limit: u64,
    book: &RuleBook<R>,
    source: &mut S,
    sink: &mut K,
    disk: D,
) -> (Status, D)
    ensures goes { GoesOn (D.meaning disk) (D.meaning result.1) }
    ensures runs { RunsOver (given_by limit (book_meaning R.Rule book.now))
        result.0 (S.left source.old) (S.left source.new) (K.written sink.old) (K.written sink.new)
        (K.faults sink.old) (K.faults sink.new) (D.meaning disk) (D.meaning result.1) }
    ensures source { SourceCounted result.0 (S.faults source.old) (S.faults source.new) }
    ensures sink { SinkCounted result.0 (K.faults sink.old) (K.faults sink.new) }
    ensures disk { DiskCounted result.0 (D.meaning disk).faults (D.meaning result.1).faults }
{
    a_file_opens_or_is_damaged();
    match mount_counted::<D, Brand>(alloc, disk, limit, Blank::new(1)) {
        Err((disk, fault)) => (refuse_file(sink, fault), disk),
        Ok((mut archive, _opened)) => {
            let driven = drive(alloc, &mut archive, book, source, sink);
            (driven.status, archive.into_disk())
        }
    }
}
