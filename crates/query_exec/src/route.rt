//! A slice, split by versions, in the order in which they are walked to.

ghost use Rattle.std.specs.Prelude.{◌≡◌, ◌≤◌, IfOk, length};
ghost use Rattle.relations_spec.specs.Spans.{forever};
ghost use Rattle.smo_ops_spec.specs.Past.{Past};
ghost use Rattle.version_groups.specs.Groups.{versions_in};
ghost use Rattle.version_groups.specs.Representation.{Represents};
ghost use Rattle.period_split.specs.Splitting.{split_by};
ghost use Rattle.query_exec.specs.Routes.{back_from, on_from, IsRoute};

use period_split::split;
use prima_base::{NoMemory, Period};
use std::alloc::Global;
use version_groups::Groups;

/// The parts of a slice, one for each version that is in force in it; of these those of the asked
/// version and of versions before it, from the last to the first, and those of later versions.
#[derive(Drop)]
pub(crate) struct Route {
    pub(crate) asked: u32,
    pub(crate) slice: Period,
    pub(crate) parts: Vec<(Period, u32)>,
    pub(crate) earlier: Vec<(Period, u32)>,
    pub(crate) later: Vec<(Period, u32)>,
}

/// A period ends by the end of time: its end is a number of the code.
pub(crate) fn ends_in_time(slice: Period)
    ensures { slice.end ≤ forever }
{
    let _end = slice.end();
}

fn back_from(
    alloc: Global,
    parts: &[(Period, u32)],
    asked: u32,
) -> Result<Vec<(Period, u32)>, NoMemory>
    ensures { IfOk result (λ v. v.items ≡ back_from asked parts.now) }
{
    match parts {
        [] => Ok(Vec::new(alloc)),
        [part, rest @ ..] => {
            let mut after = back_from(alloc, rest, asked)?;
            if asked < part.1 {
                return Ok(after);
            }
            after.push(*part)?;
            Ok(after)
        }
    }
}

fn on_from(
    alloc: Global,
    parts: &[(Period, u32)],
    asked: u32,
) -> Result<Vec<(Period, u32)>, NoMemory>
    ensures { IfOk result (λ v. v.items ≡ on_from asked parts.now) }
{
    let mut later = Vec::new(alloc);
    for part in parts {
        if asked < part.1 {
            later.push(*part)?;
        }
    }
    Ok(later)
}

/// The parts of the slice, from the asked version on back and forth. For n versions it takes n
/// steps.
pub(crate) fn route_of(
    alloc: Global,
    groups: &Groups,
    slice: Period,
    asked: u32,
) -> Result<Route, NoMemory>
    requires represents { (past : Past) × Represents groups.now past }
    requires there { asked ≤ length groups.now.versions }
    ensures route { IfOk result (λ r. IsRoute (versions_in groups.now) r) }
    ensures asked { IfOk result (λ r. r.asked ≡ asked) }
    ensures slice { IfOk result (λ r. r.slice ≡ slice) }
    ensures parts { IfOk result (λ r. r.parts.items ≡ split_by (versions_in groups.now) slice) }
{
    ends_in_time(slice);
    let parts = split(groups, slice)?;
    let earlier = back_from(alloc, &parts, asked)?;
    let later = on_from(alloc, &parts, asked)?;
    Ok(Route {
        asked,
        slice,
        parts,
        earlier,
        later,
    })
}
