//! All that a command or a checkpoint needs before the disk is called.

ghost use Rattle.std.specs.Prelude.{◌≡◌, ◌<◌, IfOk, OnOk};
ghost use Rattle.relations_spec.specs.Spans.{forever};
ghost use Rattle.smo_ops_types.specs.Commands.{command_of};
ghost use Rattle.smo_ops_spec.specs.Past.{Past};
ghost use Rattle.command_codec_spec.specs.Found.{Encodes};
ghost use Rattle.command_codec_spec.specs.Valid.{IsCommand, IsWritable};
ghost use Rattle.journal.specs.JournalFiles.{sealed_record};
ghost use Rattle.archive_core_replay.specs.Memory.{accepted_command, RepresentsPast};
ghost use Rattle.archive_core_replay.specs.Memory.{RepresentsSome};
ghost use Rattle.archive_core_file_spec.specs.LogRecords.{logged, record_of};
ghost use Rattle.archive_core.specs.Committing.{IsCommandChecked};
ghost use Rattle.archive_core.specs.Checkpointing.{checkpoint_of};
ghost use Rattle.archive_core_replay.specs.Images.{GroupsHold};

use crate::CommitFault;
use archive_core_replay::{AcceptedCommand, ArchiveState, CommandFault, image_of};
use command_codec::{encode_changes, encode_operator};
use command_codec_spec::accepted_commands_can_be_written;
use journal::{CHECKPOINT, COMMAND, RECORD_HEAD, Sealed};
use prima_base::NoMemory;
use smo_ops_types::Command;
use std::alloc::Global;

// The spelling of an accepted command.
fn encoded(alloc: Global, accepted: &AcceptedCommand) -> Result<Vec<u8>, NoMemory>
    requires valid { (accepted_command accepted.now).stamp < forever }
    requires writable { IsWritable (accepted_command accepted.now) }
    ensures { IfOk result (λ v. Encodes (accepted_command accepted.now) v.items) }
{
    match accepted {
        AcceptedCommand::Changes { stamp, changes, .. } => encode_changes(alloc, *stamp, changes),
        AcceptedCommand::Evolve(version) => {
            encode_operator(alloc, version.stamp, &version.op, &version.inverse)
        }
    }
}

// The record of an accepted command.
fn seal(alloc: Global, accepted: &AcceptedCommand) -> Result<Sealed, NoMemory>
    requires valid { (accepted_command accepted.now).stamp < forever }
    requires writable { IsWritable (accepted_command accepted.now) }
    ensures sealed { IfOk result (λ s. sealed_record s
        ≡ record_of (logged (accepted_command accepted.now))) }
    ensures encoded { OnOk result (IsCommand (accepted_command accepted.now)) }
{
    let bytes = encoded(alloc, accepted)?;
    Sealed::new(alloc, COMMAND, &bytes)
}

/// Checks the command, and seals the record of an accepted one, which is answered with what
/// checking found. No device is called, and what stands in memory stays as it is.
pub(crate) fn check_and_seal(
    alloc: Global,
    state: &ArchiveState,
    command: Command,
) -> Result<(AcceptedCommand, Sealed), CommitFault>
    ensures same { IfOk result (λ it. accepted_command it.0 ≡ command_of command) }
    ensures checked { (past : Past) → RepresentsPast state.now past
        → IsCommandChecked past (command_of command) result }
    ensures sealed { IfOk result (λ it. sealed_record it.1
        ≡ record_of (logged (command_of command))) }
    ensures encoded { OnOk result (IsCommand (command_of command)) }
    ensures represents { RepresentsSome state.now }
{
    match state.check_new(command) {
        Ok(accepted) => {
            accepted_commands_can_be_written();
            let sealed = seal(alloc, &accepted)?;
            Ok((accepted, sealed))
        }
        Err(CommandFault::Refused(refusal)) => Err(CommitFault::Refused(refusal)),
        Err(CommandFault::NoMemory) => Err(CommitFault::NoMemory),
    }
}

/// The record of a checkpoint: the image of all that the archive has.
pub(crate) fn seal_checkpoint(alloc: Global, state: &ArchiveState) -> Result<Sealed, NoMemory>
    ensures sealed { IfOk result (λ s. sealed_record s ≡ record_of (checkpoint_of state.now)) }
    ensures holds { OnOk result (GroupsHold state.now.groups) }
{
    let last = state.last();
    let bytes = image_of(alloc, state.groups(), last, RECORD_HEAD)?;
    Sealed::over(CHECKPOINT, bytes)
}
