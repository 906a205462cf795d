//! The tables of a version, by its number.

ghost use Rattle.std.specs.Prelude.{◌≡◌, ◌≤◌, vec_len};
ghost use Rattle.smo_ops_types.specs.Commands.{versions_of};
ghost use Rattle.smo_ops_spec.specs.Past.{no_tables, tables_from};

use schema_catalog::Schema;
use smo_ops_types::Versions;

/// The tables of version `k`; `nothing` has none.
pub fn tables_at<'a>(nothing: &'a Schema, versions: &'a Versions, k: usize) -> &'a Schema
    requires nothing { nothing.now ≡ no_tables }
    requires there { k ≤ vec_len versions.now.list }
    ensures { result.now ≡ tables_from no_tables (versions_of versions.now) k }
{
    if k == 0 {
        nothing
    } else {
        &versions.list[k - 1].schema
    }
}
