//! The response to CHECKPOINT: its `ok` line is put when the record of an image of the archive is
//! on the disk.

ghost use Rattle.std.specs.Prelude.{◌≡◌, OnOk, OnErr, IfOk};
ghost use Rattle.std.specs.Io.KnownBytes.{Appends};
ghost use Rattle.prima_io.specs.Causes.{HasCause};
ghost use Rattle.prima_io.specs.Moves.{AppendsPrefix};
ghost use Rattle.script_cli_vault.specs.ArchiveOnDisk.{below};
ghost use Rattle.answer_text.specs.Texts.{checkpoint_text};
ghost use Rattle.script_cli_statement.specs.Given.{Given};
ghost use Rattle.script_cli_statement.specs.Replies.{Recorded, checkpoint_reply};
ghost use Rattle.script_cli_statement.specs.StopReasons.{StopCounted};
ghost use Rattle.script_cli_statement.specs.declared.reply_kind.ReplyKind.TheVariants as ReplyKind;
ghost use Rattle.script_cli_statement.specs.Responses.{Responds, RepresentsAt, TakesRecords};

use crate::reply_kind::ReplyKind;
use crate::response::refuse;
use crate::stop_reason::{StopReason, or_write_fault};
use answer_text::put_checkpoint;
use disk_model::Disk;
use prima_io::{Failed, Sink};
use script_cli_vault::{Archive, CommitFault};

/// Puts the `ok` line of a checkpoint.
pub(crate) fn put_stored<K: Sink>(sink: &mut K) -> Result<ReplyKind, Failed>
    ensures ok { IfOk result (λ put. put ≡ ReplyKind.NoError) }
    ensures all { OnOk result (Appends (K.written sink.old) (K.written sink.new) checkpoint_text) }
    ensures part { OnErr result (AppendsPrefix (K.written sink.old) (K.written sink.new)
        checkpoint_text) }
    ensures cause { HasCause (K.faults sink.old) (K.faults sink.new) result }
{
    match put_checkpoint(sink) {
        Ok(()) => Ok(ReplyKind::NoError),
        Err(Failed) => Err(Failed),
    }
}

/// Responds to CHECKPOINT: an image of the archive is put, or it is refused where its record would
/// end past the limit. No earlier call has failed, so that `Broken` never comes.
pub(crate) fn respond_checkpoint<K: Sink, D: Disk>(
    archive: &mut Archive<D>,
    sink: &mut K,
) -> Result<ReplyKind, StopReason>
    requires takes { TakesRecords archive.old }
    ensures replies { (limit : Given) → (now : Recorded) → RepresentsAt archive.old limit now
        → Responds limit (checkpoint_reply limit now) result archive.old archive.new
        (K.written sink.old) (K.written sink.new) }
    ensures takes { OnOk result (TakesRecords archive.new) }
    ensures counts { StopCounted result (K.faults sink.old) (K.faults sink.new)
        (below archive.old).faults (below archive.new).faults }
{
    match archive.checkpoint() {
        Ok(()) => or_write_fault(put_stored(sink)),
        Err(CommitFault::Refused(refusal)) => or_write_fault(refuse(sink, &refusal)),
        Err(CommitFault::Broken) => Err(StopReason::DiskFault),
        Err(CommitFault::Disk) => Err(StopReason::DiskFault),
        Err(CommitFault::NoMemory) => Err(StopReason::NoMemory),
    }
}
