//! What groups that are made again stand for.

ghost use Rattle.smo_ops_spec.specs.Past.{Past};
ghost use Rattle.version_groups.specs.Restoring.{AreRestored, IsPastOf};
ghost use Rattle.version_groups.specs.Representation.{Represents};

use crate::Groups;

/// Restored groups represent each past that is one of theirs: with their versions, and at each
/// moment what is stored of it.
pub fn restored_groups_represent(groups: &Groups)
    ensures { (past : Past) → AreRestored groups.now → IsPastOf groups.now past
        → Represents groups.now past }
{}
