//! The records of a file, made an archive in memory.

ghost use Rattle.std.specs.Prelude.{◌≡◌, ◌+◌, ◌≤◌, List, length, map, IfOk, OnOk, Err};
ghost use Rattle.smo_ops_types.specs.Commands.{command_of};
ghost use Rattle.smo_ops_spec.specs.Past.{Past};
ghost use Rattle.journal.specs.Reading.{records_in, AreInPlace};
ghost use Rattle.archive_core_state.specs.ArchiveContents.{RepresentsPast, RepresentsSome};
ghost use Rattle.archive_core_file_spec.specs.LogRecords.{LogRecord, records_of, replayed_of};
ghost use Rattle.archive_core_file_spec.specs.Opening.{HasFaultAt};
ghost use Rattle.archive_core_replay.specs.Replaying.{Replays, IsStoppedAt, IsReplayed};
ghost use Rattle.archive_core_replay.specs.Restoring.{IsRestored};
ghost use Rattle.archive_core_replay.specs.declared.fault.RestoreFault.TheVariants as restoring;

use crate::record_reader::read_all;
use crate::{Opened, RestoreFault};
use archive_core_state::{ArchiveState, CommandFault};
use journal::Rec;
use prima_base::Steps;
use smo_ops_types::Command;
use std::alloc::Global;
use std::sync::ledger::Ledger;

// Carries out a command of the record whose gate is at `at`, if it is accepted.
fn replay_command(state: &mut ArchiveState, command: Command, at: u64) -> Result<(), RestoreFault>
    ensures replays { (past : Past) → RepresentsPast state.old past
        → Replays past (command_of command) at result state.new }
    ensures represents { RepresentsSome state.old × RepresentsSome state.new }
{
    match state.commit(command) {
        Ok(_done) => Ok(()),
        Err(CommandFault::Refused(_refusal)) => Err(RestoreFault::Damaged(at)),
        Err(CommandFault::NoMemory) => Err(RestoreFault::NoMemory),
    }
}

// Carries out the commands, each of the record beside it; a step for each.
fn replay<L: Ledger>(
    state: &mut ArchiveState,
    recs: &[Rec],
    commands: Vec<Command>,
    steps: &mut Steps<L>,
) -> Result<(), RestoreFault>
    requires { length commands.items ≡ length recs.now }
    ensures represents { (past : Past) → RepresentsPast state.old past
        → OnOk result (IsReplayed past (map command_of commands.items) state.new) }
    ensures stopped { (past : Past) → RepresentsPast state.old past → (place : _)
        → result ≡ Err (restoring.Damaged place)
        → IsStoppedAt past (map command_of commands.items) recs.now place }
    ensures cost { steps.new ≤ steps.old + length commands.items }
{
    for (command, rec) in commands.into_iter().zip(recs) {
        steps.tick();
        replay_command(state, command, rec.at)?;
    }
    Ok(())
}

/// The archive that the records stand for: all payloads are read before any command is checked, and
/// then the commands after the last image are carried out over what it shows. A step for each of
/// these, at most.
pub fn restore<L: Ledger>(
    alloc: Global,
    recs: &[Rec],
    steps: &mut Steps<L>,
) -> Result<(ArchiveState, Opened), RestoreFault>
    requires { AreInPlace recs.now }
    ensures restored { IfOk result (λ it. IsRestored (records_in recs.now) it.0 it.1) }
    ensures represents { IfOk result (λ it. RepresentsSome it.0) }
    ensures damaged { (place : _) → result ≡ Err (restoring.Damaged place)
        → HasFaultAt (records_in recs.now) place }
    ensures cost { steps.new ≤ steps.old + length recs.now }
    ensures cost_open { (log : List LogRecord) → records_in recs.now ≡ records_of log
        → steps.new ≤ steps.old + replayed_of log }
    ensures steps { IfOk result (λ it. steps.new ≤ steps.old + it.1.replayed) }
{
    let kept = read_all(alloc, recs)?;
    let opened = Opened {
        commands: kept.count,
        replayed: kept.commands.len() as u64,
    };
    let after = &recs[recs.len() - kept.commands.len()..];
    let mut state = kept.state;
    replay(&mut state, after, kept.commands, steps)?;
    Ok((state, opened))
}
