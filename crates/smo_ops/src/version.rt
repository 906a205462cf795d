//! When versions are in force.

ghost use Rattle.std.specs.Prelude.{◌≡◌, map};
ghost use Rattle.smo_ops_types.specs.Commands.{version_of};
ghost use Rattle.smo_ops_spec.specs.InForce.{begins_at};

use prima_base::FOREVER;
use smo_ops_types::Version;

/// The moment from which on the version with this number is in force, as `versions` are those from
/// version 1 on: moment 0 of version 0, the stamp of another. Of one that is not there it is
/// `FOREVER`. It takes no memory.
pub fn begins_at(versions: &[Version], number: usize) -> u64
    ensures { result ≡ begins_at (map version_of versions.now) number }
{
    if number == 0 {
        return 0;
    }
    if number > versions.len() {
        return FOREVER;
    }
    versions[number - 1].stamp
}
