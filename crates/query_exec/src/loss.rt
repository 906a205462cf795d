//! The loss that is found first in a query's slice.

ghost use Rattle.std.specs.Prelude.{◌≡◌, ◌≤◌, IfOk, None, length, take, vec_len};
ghost use Rattle.std.specs.Option.{option_or};
ghost use Rattle.smo_ops_types.specs.Commands.{versions_of};
ghost use Rattle.smo_ops_spec.specs.Past.{Past, no_tables};
ghost use Rattle.smo_ops_spec.specs.ValidPast.{AreVersions};
ghost use Rattle.temporal_lang_types.specs.Queries.{query_of, IsLasting};
ghost use Rattle.temporal_lang_spec.specs.Losing.{first_loss_of};
ghost use Rattle.version_groups.specs.Representation.{Represents};
ghost use Rattle.period_split.specs.Splitting.{AscendFrom};
ghost use Rattle.query_exec.specs.Losing.{first_among, AllUpTo};

use crate::route::ends_in_time;
use period_split::split;
use prima_base::{NoMemory, Period};
use rewrite::first_lost;
use smo_ops_types::Versions;
use std::alloc::Global;
use temporal_lang::{Query, slice};
use version_groups::Groups;

// The loss from the first of the parts' versions from which there is one, of which none is before
// the first place; at the second place, or after it, the loss that was found is the first. An item
// that is lost on the way from one version is lost on the way from each later one, so the parts
// between are halved.
fn first_between(
    alloc: Global,
    versions: &Versions,
    query: &Query,
    parts: &[(Period, u32)],
    low: usize,
    high: usize,
    found: Option<(u32, u32)>,
) -> Result<Option<(u32, u32)>, NoMemory>
    requires asked { query.now.version ≤ vec_len versions.now.list }
    requires versions { AreVersions None no_tables (versions_of versions.now) }
    requires there { AllUpTo (vec_len versions.now.list) parts.now }
    requires ascending { AscendFrom 0 parts.now }
    requires order { low ≤ high }
    requires within { high ≤ length parts.now }
    requires none { first_among (versions_of versions.now) (query_of query.now) (take low parts.now)
        ≡ None }
    requires found { first_among (versions_of versions.now) (query_of query.now) parts.now
        ≡ option_or (first_among (versions_of versions.now) (query_of query.now)
        (take high parts.now)) found }
    ensures { IfOk result (λ loss. loss ≡ first_among (versions_of versions.now)
        (query_of query.now) parts.now) }
{
    if low == high {
        return Ok(found);
    }
    let middle = low + (high - low) / 2;
    let part = parts[middle];
    let loss = first_lost(alloc, versions, part.1, query.version, query)?;
    match loss {
        Some(_) => first_between(alloc, versions, query, parts, low, middle, loss),
        None => first_between(alloc, versions, query, parts, middle + 1, high, found),
    }
}

// The loss from the first of the parts' versions from which there is one. Where nothing is lost
// from the last, nothing is from any.
fn decided(
    alloc: Global,
    versions: &Versions,
    query: &Query,
    parts: &[(Period, u32)],
) -> Result<Option<(u32, u32)>, NoMemory>
    requires asked { query.now.version ≤ vec_len versions.now.list }
    requires versions { AreVersions None no_tables (versions_of versions.now) }
    requires there { AllUpTo (vec_len versions.now.list) parts.now }
    requires ascending { AscendFrom 0 parts.now }
    ensures { IfOk result (λ loss. loss ≡ first_among (versions_of versions.now)
        (query_of query.now) parts.now) }
{
    match parts {
        [] => Ok(None),
        [.., last] => {
            let loss = first_lost(alloc, versions, last.1, query.version, query)?;
            match loss {
                None => Ok(None),
                Some(_) => first_between(alloc, versions, query, parts, 0, parts.len() - 1, loss),
            }
        }
    }
}

/// The loss that is found first in the query's slice: that of the first of its items that is lost,
/// by names alone, on the way from the version in force at the least moment at which one is. `None`
/// exactly where none is. Each reference of the query is to an item. For n versions in the slice it
/// is one walk along the versions where nothing is lost, else one more each time that n doubles.
/// The one error is `NoMemory`, where memory runs out.
pub fn first_loss_in_slice(
    alloc: Global,
    groups: &Groups,
    query: &Query,
) -> Result<Option<(u32, u32)>, NoMemory>
    requires represents { (past : Past) × Represents groups.now past }
    requires asked { query.now.version ≤ length groups.now.versions }
    requires lasting { IsLasting query.now.when }
    ensures { (past : Past) → Represents groups.now past
        → IfOk result (λ loss. loss ≡ first_loss_of past (query_of query.now)) }
{
    let slice = slice(query);
    ends_in_time(slice);
    let parts = split(groups, slice)?;
    decided(alloc, groups.versions(), query, &parts)
}
