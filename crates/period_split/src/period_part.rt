ghost use Rattle.std.specs.Prelude.{◌≡◌, ◌+◌, ◌<◌, ◌^◌, ◌++◌, ℕ, true, map, length, IfOk, OnOk};
ghost use Rattle.relations_spec.specs.Spans.{span, forever, covers, common};
ghost use Rattle.smo_ops_types.specs.Commands.{version_of};
ghost use Rattle.smo_ops_spec.specs.InForce.{begins_at};
ghost use Rattle.smo_ops_spec.specs.Past.{Past, version_at};
ghost use Rattle.version_groups.specs.Groups.{versions_in};
ghost use Rattle.version_groups.specs.Representation.{Represents};
ghost use Rattle.period_split.specs.Splitting.{as_part, parts_below, split_by, HasMoment};
ghost use Rattle.period_split.specs.Splitting.{AscendFrom};

use prima_base::{FOREVER, NoMemory, Period, meet};
use smo_ops::{Version, begins_at};
use std::alloc::Global;
use version_groups::Groups;

// The moments of the slice from the one moment up to, and not at, the other.
fn moments_between(begin: u64, end: u64, slice: Period) -> Option<Period>
    ensures { result ≡ common (span begin end) slice }
{
    let own = Period::new(begin, end)?;
    meet(own, slice)
}

// Puts the part of a version that is in force between the two moments after the others, where the
// slice has any of them.
fn put_part(
    parts: &mut Vec<(Period, u32)>,
    version: u32,
    begin: u64,
    end: u64,
    slice: Period,
) -> Result<(), NoMemory>
    ensures { OnOk result (parts.new.items ≡ parts.old.items
        ++ as_part version (common (span begin end) slice)) }
{
    match moments_between(begin, end, slice) {
        None => Ok(()),
        Some(period) => {
            parts.push((period, version))?;
            Ok(())
        }
    }
}

// The parts of all versions before the newest.
fn parts_before(
    alloc: Global,
    versions: &[Version],
    slice: Period,
) -> Result<Vec<(Period, u32)>, NoMemory>
    requires { length versions.now < 2 ^ 32 }
    ensures { IfOk result (λ v. v.items ≡ parts_below (map version_of versions.now) slice
        (length versions.now)) }
{
    let mut parts = Vec::new(alloc);
    let mut begin = 0;
    for (number, version) in versions.iter().enumerate() {
        put_part(&mut parts, number as u32, begin, version.stamp, slice)?;
        begin = version.stamp;
    }
    Ok(parts)
}

// The first moment of the newest version.
fn last_stamp(versions: &[Version]) -> u64
    ensures { result ≡ begins_at (map version_of versions.now) (length versions.now) }
{
    begins_at(versions, versions.len())
}

/// The versions that are in force in the slice, each with its moments there: ascending, and without
/// a version that is in force at none of them. Each moment of the slice stands with the one version
/// that is in force then, and no other moment stands there. For n versions it takes n steps. The
/// one error is `NoMemory`, where memory runs out.
pub fn split(groups: &Groups, slice: Period) -> Result<Vec<(Period, u32)>, NoMemory>
    ensures parts { IfOk result (λ v. v.items ≡ split_by (versions_in groups.now) slice) }
    ensures ascending { IfOk result (λ v. AscendFrom 0 v.items) }
    ensures each { (past : Past) → Represents groups.now past → (m : ℕ) → m < forever
        → covers slice m ≡ true → IfOk result (λ v. HasMoment v.items (version_at past m) m) }
    ensures only { (past : Past) → Represents groups.now past → (k : ℕ) → (m : ℕ)
        → IfOk result (λ v. HasMoment v.items k m → (covers slice m ≡ true)
        × (version_at past m ≡ k)) }
{
    let newest = groups.newest();
    let versions = &groups.versions().list;
    let mut parts = parts_before(*versions.allocator(), versions, slice)?;
    put_part(&mut parts, newest, last_stamp(versions), FOREVER, slice)?;
    Ok(parts)
}
