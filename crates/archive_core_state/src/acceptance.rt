//! Whether a command is accepted: the first refusal in the one order, and else what was found on
//! the way.

ghost use Rattle.std.specs.Prelude.{◌≡◌, ◌≤◌, length, nat_lt, IfOk, OnOk, None, List};
ghost use Rattle.std.specs.Option.{option_map};
ghost use Rattle.prima_base.specs.Faults.{IsTested, IsTestedAs};
ghost use Rattle.prima_base.specs.declared.refusal.What.TheVariants.{Versions};
ghost use Rattle.prima_base.specs.declared.refusal.Refusal.TheVariants.{TooMany};
ghost use Rattle.prima_base.specs.Limits.{max_versions};
ghost use Rattle.smo_ops_spec.specs.First.{unless, first_refusal};
ghost use Rattle.smo_ops_types.specs.Commands.{evolving, body_of, command_of};
ghost use Rattle.smo_ops_types.specs.Operators.{Operator, evolution_of, evolutions_of};
ghost use Rattle.smo_ops_spec.specs.Counts.{first_excess};
ghost use Rattle.smo_ops_spec.specs.Evolutions.{evolution_fault, schema_after_each};
ghost use Rattle.smo_ops_spec.specs.After.{HaveFewNodes, AllHaveFewNodes};
ghost use Rattle.smo_ops_spec.specs.ValidValues.{BodyHolds};
ghost use Rattle.smo_ops_spec.specs.Inverses.{inverse_fault};
ghost use Rattle.smo_ops_spec.specs.Accepts.{operator_refusal, count_fault, stamp_fault};
ghost use Rattle.smo_ops_spec.specs.Accepts.{body_tests};
ghost use Rattle.smo_ops_spec.specs.Accepts.{command_fault};
ghost use Rattle.smo_ops_spec.specs.Past.{Past, newest_tables};
ghost use Rattle.version_groups.specs.Representation.{Represents};
ghost use Rattle.version_groups.specs.Steps.{a_command};
ghost use Rattle.archive_core_state.specs.AcceptedCommands.{accepted_command, HasFound};
ghost use Rattle.archive_core_state.specs.AcceptedCommands.{IsAcceptedAfter};

use crate::{AcceptedCommand, CommandFault};
use prima_base::limits::MAX_VERSIONS;
use prima_base::{Refusal, What};
use schema_catalog::Schema;
use smo_ops::{
    Body, Command, InverseFault, Op, OpFault, Version, after, check_changes, check_counts,
    check_way_back, counted_operators_are_few, operator_refusal,
};
use std::alloc::Global;
use version_groups::Groups;

// The counts of the command are within their limits.
fn check_command_counts(command: &Command) -> Result<(), CommandFault>
    ensures counts { IsTested (count_fault (first_excess (body_of command.now.1))) result }
    ensures constants { OnOk result (BodyHolds (body_of command.now.1)) }
{
    match check_counts(command) {
        Ok(()) => Ok(()),
        Err((what, limit)) => Err(CommandFault::Refused(Refusal::TooMany(what, limit))),
    }
}

// The stamp is above the last one.
fn check_stamp(last: Option<u64>, stamp: u64) -> Result<(), CommandFault>
    ensures { IsTested (stamp_fault last stamp) result }
{
    match last {
        Some(last) if stamp <= last => {
            Err(CommandFault::Refused(Refusal::StampNotLater(stamp, last)))
        }
        _ => Ok(()),
    }
}

// There is room for one version more.
fn check_versions(newest: u32) -> Result<(), CommandFault>
    ensures { IsTested (unless (nat_lt newest max_versions) (TooMany Versions max_versions))
        result }
{
    if (newest as usize) < MAX_VERSIONS {
        return Ok(());
    }
    Err(CommandFault::Refused(Refusal::TooMany(What::Versions, MAX_VERSIONS as u64)))
}

// The preconditions of the operator; the schema after it.
fn check_operator(alloc: Global, schema: &Schema, op: &Op) -> Result<Schema, CommandFault>
    requires { HaveFewNodes (evolution_of op.now) }
    ensures tested { IsTested (option_map operator_refusal
        (evolution_fault schema.now (evolution_of op.now))) result }
    ensures next { IfOk result (λ next. next ≡ schema_after_each schema.now (evolution_of op.now)) }
{
    match after(alloc, schema, op) {
        Ok(next) => Ok(next),
        Err(OpFault::Refused(refusal)) => Err(CommandFault::Refused(operator_refusal(refusal))),
        Err(OpFault::NoMemory) => Err(CommandFault::NoMemory),
    }
}

// The inverse leads back, from the schema after the operator to the one before it.
fn check_its_inverse(
    alloc: Global,
    before: &Schema,
    next: &Schema,
    inverse: &[Op],
) -> Result<(), CommandFault>
    requires inverse { AllHaveFewNodes (evolutions_of inverse.now) }
    requires few { length inverse.now ≤ 8 }
    ensures { (op : List Operator) → next.now ≡ schema_after_each before.now op
        → IsTested (inverse_fault before.now op (evolutions_of inverse.now)) result }
{
    match check_way_back(alloc, before, next, inverse) {
        Ok(()) => Ok(()),
        Err(InverseFault::Op(number, refusal)) => {
            Err(CommandFault::Refused(Refusal::InverseOp(number as u32, refusal)))
        }
        Err(InverseFault::Misses(name)) => Err(CommandFault::Refused(Refusal::InverseMisses(name))),
        Err(InverseFault::NoMemory) => Err(CommandFault::NoMemory),
    }
}

// An operator and its inverse; the schema after it.
#[tactic(auto, using(crate::proofs::Checking::few_operators, crate::proofs::Checking::checked_after))]
fn check_evolve(
    alloc: Global,
    groups: &Groups,
    op: &Op,
    inverse: &[Op],
) -> Result<Schema, CommandFault>
    requires counted { first_excess (evolving (evolution_of op.now) (evolutions_of inverse.now))
        ≡ None }
    requires represents { (past : Past) × Represents groups.now past }
    ensures tested { (past : Past) → Represents groups.now past
        → IsTested (first_refusal (body_tests past
        (evolving (evolution_of op.now) (evolutions_of inverse.now)))) result }
    ensures next { (past : Past) → Represents groups.now past
        → IfOk result (λ next. next ≡ schema_after_each (newest_tables past) (evolution_of op.now)) }
{
    counted_operators_are_few();
    check_versions(groups.newest())?;
    let before = groups.newest_schema();
    let next = check_operator(alloc, before, op)?;
    match check_its_inverse(alloc, before, &next, inverse) {
        Ok(()) => Ok(next),
        Err(fault) => Err(fault),
    }
}

// What the command does from the stamp on, with what checking it finds.
#[tactic(auto, using(crate::proofs::Checking::narrow_newest))]
fn check_body(
    alloc: Global,
    groups: &Groups,
    stamp: u64,
    body: Body,
) -> Result<AcceptedCommand, CommandFault>
    requires counted { first_excess (body_of body) ≡ None }
    requires represents { (past : Past) × Represents groups.now past }
    ensures tested { (past : Past) → Represents groups.now past
        → IsTested (first_refusal (body_tests past (body_of body))) result }
    ensures same { IfOk result (λ accepted. accepted_command accepted
        ≡ a_command stamp (body_of body)) }
    ensures found { (past : Past) → Represents groups.now past
        → IfOk result (λ accepted. HasFound past accepted) }
{
    match body {
        Body::Changes(changes) => {
            let places = check_changes(alloc, groups.newest_schema(), &changes)?;
            Ok(AcceptedCommand::Changes {
                stamp,
                changes,
                places,
            })
        }
        Body::Evolve { op, inverse } => {
            let schema = check_evolve(alloc, groups, &op, &inverse)?;
            Ok(AcceptedCommand::Evolve(Version {
                stamp,
                op,
                inverse,
                schema,
            }))
        }
    }
}

/// Whether the command is accepted after the past that the groups represent, with this last stamp,
/// and then what checking it found; else its first refusal in the one order: its counts, its stamp,
/// and then what it does.
#[tactic(auto, using(crate::proofs::Checking::checked_after, crate::proofs::Checking::first_decides, crate::proofs::Checking::second_decides))]
pub(crate) fn check(
    alloc: Global,
    groups: &Groups,
    last: Option<u64>,
    command: Command,
) -> Result<AcceptedCommand, CommandFault>
    requires represents { (past : Past) × Represents groups.now past × (last ≡ past.last) }
    ensures same { IfOk result (λ accepted. accepted_command accepted ≡ command_of command) }
    ensures checks { (past : Past) → Represents groups.now past → last ≡ past.last
        → IsTestedAs (IsAcceptedAfter past) (command_fault past (command_of command)) result }
{
    let stamp = command.stamp();
    check_command_counts(&command)?;
    check_stamp(last, stamp)?;
    check_body(alloc, groups, stamp, command.into_body())
}
