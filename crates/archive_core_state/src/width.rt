//! Whether what an accepted command makes is too wide.

ghost use Rattle.std.specs.Prelude.{◌≡◌, None};
ghost use Rattle.prima_base.specs.Faults.{IsTested};
ghost use Rattle.smo_ops_types.specs.Operators.{evolution_of, evolutions_of};
ghost use Rattle.smo_ops_types.specs.Commands.{evolving};
ghost use Rattle.smo_ops_spec.specs.Accepts.{command_fault};
ghost use Rattle.smo_ops_spec.specs.Past.{Past};
ghost use Rattle.smo_ops_widths.specs.MeasureFaults.{measure_fault, width_fault};
ghost use Rattle.version_groups.specs.Representation.{Represents};
ghost use Rattle.version_groups.specs.Steps.{a_command};
ghost use Rattle.archive_core_state.specs.AcceptedCommands.{accepted_command};

use crate::{AcceptedCommand, CommandFault};
use prima_base::Refusal;
use smo_ops::Version;
use smo_ops_widths::{MAX_MEASURE, widest};
use std::alloc::Global;
use version_groups::Groups;

// The measure of what makes a version is within its limit.
fn check_measure(measure: u64) -> Result<(), CommandFault>
    ensures { IsTested (measure_fault measure) result }
{
    if measure <= MAX_MEASURE {
        return Ok(());
    }
    Err(CommandFault::Refused(Refusal::TooWide(measure)))
}

// So is that of the version that an operator makes.
fn check_version(alloc: Global, groups: &Groups, version: &Version) -> Result<(), CommandFault>
    requires { (past : Past) × Represents groups.now past
        × (command_fault past (a_command version.now.stamp (evolving (evolution_of version.now.op)
        (evolutions_of version.now.inverse.items))) ≡ None) }
    ensures { (past : Past) → Represents groups.now past
        → IsTested (width_fault past (a_command version.now.stamp (evolving
        (evolution_of version.now.op) (evolutions_of version.now.inverse.items)))) result }
{
    let measure = widest(alloc, groups.versions(), &version.op, &version.inverse)?;
    check_measure(measure)
}

/// What an accepted command makes is not too wide: the version of an operator, and changes make
/// none.
pub(crate) fn check_width(
    alloc: Global,
    groups: &Groups,
    accepted: &AcceptedCommand,
) -> Result<(), CommandFault>
    requires { (past : Past) × Represents groups.now past
        × (command_fault past (accepted_command accepted.now) ≡ None) }
    ensures { (past : Past) → Represents groups.now past
        → IsTested (width_fault past (accepted_command accepted.now)) result }
{
    match accepted {
        AcceptedCommand::Changes { .. } => Ok(()),
        AcceptedCommand::Evolve(version) => check_version(alloc, groups, version),
    }
}
